ghost use Rattle.std.specs.Prelude.{◌≡◌, ◌++◌, ◌<◌, ℕ, List, length, map, false, slice_index_or, Some, None, unwrap_or, option_to_list, IfOk, OnOk};
ghost use Rattle.std.specs.List.{flat_map};
ghost use Rattle.cob_base.specs.declared.line.Line.{Line};
ghost use Rattle.name_rules.specs.Faults.{faults_at};
ghost use Rattle.statement_parts.specs.Statements.{in_paragraph};
ghost use Rattle.statement_parts.specs.Seen.{seen_all};
ghost use Rattle.procedure_rules.specs.Performed.{arrow_between, arrow_to, arrow_of, arrows_from, arrows, AreCycleLines};
ghost use Rattle.procedure_names.specs.Names.{paragraph_named};
ghost use Rattle.procedure_names.specs.Scoped.{IsScope};
ghost use Rattle.procedure_rules.specs.SeenMarks.{marked_from};

use cob_base::{ByteText, Located, NoMemory, Paragraph, Statement};
use name_rules::Faults;
use perform_cycles::{Arrow, on_cycles};
use procedure_names::Scope;
use statement_parts::statements_of;
use std::alloc::Global;

/// An arrow to the paragraphs of these numbers, where there are both.
fn arrow_between(from: usize, first: Option<usize>, last: Option<usize>) -> Option<Arrow>
    ensures { option_to_list result ≡ arrow_between from first last }
{
    match first {
        Some(first) => match last {
            Some(last) => Some(Arrow { from, first, last }),
            None => None,
        },
        None => None,
    }
}

/// The number of the last paragraph of a range: the first where no other is named.
fn end_of(
    alloc: Global,
    scope: &Scope,
    first: &ByteText,
    last: &Option<ByteText>,
) -> Result<Option<usize>, NoMemory>
    requires { IsScope scope.now }
    ensures { IfOk result (λ number. number ≡ paragraph_named scope.now.program.now.paragraphs (unwrap_or last.now first.now)) }
{
    match last {
        Some(last) => scope.paragraph_named(alloc, last),
        None => scope.paragraph_named(alloc, first),
    }
}

/// The arrow to a range that a PERFORM runs, where its names stand for paragraphs.
fn arrow_to(
    alloc: Global,
    scope: &Scope,
    from: usize,
    first: &ByteText,
    last: &Option<ByteText>,
) -> Result<Option<Arrow>, NoMemory>
    requires { IsScope scope.now }
    ensures { IfOk result (λ arrow. option_to_list arrow ≡ arrow_to scope.now.program.now.paragraphs from (Some (first.now, last.now))) }
{
    let begins = scope.paragraph_named(alloc, first)?;
    let ends = end_of(alloc, scope, first, last)?;
    Ok(arrow_between(from, begins, ends))
}

fn push_arrow(arrows: &mut Vec<Arrow>, arrow: Option<Arrow>) -> Result<(), NoMemory>
    ensures { OnOk result (arrows.new.items ≡ arrows.old.items ++ option_to_list arrow) }
{
    if let Some(arrow) = arrow {
        arrows.push(arrow)?;
    }
    Ok(())
}

fn add_arrow(
    alloc: Global,
    scope: &Scope,
    arrows: &mut Vec<Arrow>,
    from: usize,
    statement: &Statement,
) -> Result<(), NoMemory>
    requires { IsScope scope.now }
    ensures { OnOk result (arrows.new.items ≡ arrows.old.items ++ arrow_of scope.now.program.now.paragraphs from statement.now) }
{
    if let Statement::PerformParagraphs { first, last, .. } = statement {
        let arrow = arrow_to(alloc, scope, from, first, last)?;
        push_arrow(arrows, arrow)?;
    }
    Ok(())
}

/// Adds the ranges that statements of the paragraph of this number run.
fn add_arrows_of(
    alloc: Global,
    scope: &Scope,
    arrows: &mut Vec<Arrow>,
    from: usize,
    statements: &[&Located<Statement>],
) -> Result<(), NoMemory>
    requires { IsScope scope.now }
    ensures { OnOk result (arrows.new.items ≡ arrows.old.items ++ flat_map (λ one. arrow_of scope.now.program.now.paragraphs from one.item) (seen_all statements.now)) }
{
    for one in statements {
        add_arrow(alloc, scope, arrows, from, &one.item)?;
    }
    Ok(())
}

/// Adds the ranges that a paragraph of this number runs.
fn add_arrows(
    alloc: Global,
    scope: &Scope,
    arrows: &mut Vec<Arrow>,
    from: usize,
    paragraph: &Paragraph,
) -> Result<(), NoMemory>
    requires { IsScope scope.now }
    ensures { OnOk result (arrows.new.items ≡ arrows.old.items ++ flat_map (λ one. arrow_of scope.now.program.now.paragraphs from one.item) (in_paragraph paragraph.now)) }
{
    let statements = statements_of(alloc, paragraph)?;
    add_arrows_of(alloc, scope, arrows, from, statements.as_slice())?;
    Ok(())
}

/// The ranges that the paragraphs of a program run.
fn arrows_of(alloc: Global, scope: &Scope, paragraphs: &[Paragraph]) -> Result<Vec<Arrow>, NoMemory>
    requires { IsScope scope.now }
    ensures { IfOk result (λ made. made.items ≡ arrows_from scope.now.program.now.paragraphs 0 paragraphs.now) }
{
    let mut arrows = Vec::new(alloc);
    for (number, paragraph) in paragraphs.iter().enumerate() {
        add_arrows(alloc, scope, &mut arrows, number, paragraph)?;
    }
    Ok(arrows)
}

/// The mark of the paragraph of this number.
fn mark_at(marks: &[bool], number: usize) -> bool
    requires { number < length marks.now }
    ensures { result ≡ slice_index_or marks.now number false }
{
    marks[number]
}

/// Notes each paragraph whose mark is set.
fn note_marked(
    faults: &mut Faults,
    paragraphs: &[Paragraph],
    marks: &[bool],
) -> Result<(), NoMemory>
    requires { length marks.now ≡ length paragraphs.now }
    ensures { OnOk result (faults.new.found.items ≡ faults.old.found.items ++ faults_at 8 (marked_from marks.now 0 paragraphs.now)) }
{
    for (number, paragraph) in paragraphs.iter().enumerate() {
        faults.note(8, paragraph.line, mark_at(marks, number))?;
    }
    Ok(())
}

/// Notes each paragraph that reaches itself through the ranges of PERFORM statements.
pub fn note_cycles(alloc: Global, faults: &mut Faults, scope: &Scope) -> Result<(), NoMemory>
    requires { IsScope scope.now }
    ensures { OnOk result ((cycles : List Line) × AreCycleLines scope.now.program.now.paragraphs cycles × (faults.new.found.items ≡ faults.old.found.items ++ faults_at 8 cycles)) }
{
    let paragraphs = scope.program.paragraphs.as_slice();
    let arrows = arrows_of(alloc, scope, paragraphs)?;
    let marks = on_cycles(alloc, paragraphs.len(), arrows.as_slice())?;
    note_marked(faults, paragraphs, marks.as_slice())?;
    Ok(())
}
