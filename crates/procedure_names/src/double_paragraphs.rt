ghost use Rattle.std.specs.Prelude.{◌≡◌, ◌++◌, ◌∷◌, [], ℕ, List, map, OnOk, IfOk};
ghost use Rattle.std.specs.List.{list_any};
ghost use Rattle.cob_base.specs.declared.divisions.Front.{Front};
ghost use Rattle.cob_base.specs.declared.paragraphs.Paragraph.{Paragraph};
ghost use Rattle.data_names.specs.References.{same_name};
ghost use Rattle.name_rules.specs.DoubleNames.{declared};
ghost use Rattle.name_rules.specs.Faults.{faults_at};
ghost use Rattle.name_rules.specs.NameKeys.{AreKeys};
ghost use Rattle.procedure_names.specs.DoubleParagraphs.{is_taken, double_paragraphs};
ghost use Rattle.procedure_names.specs.SeenNames.{taken_names};

use cob_base::{ByteText, Front, NoMemory, Paragraph, Program};
use name_rules::{DeclaredName, Faults, NameSet, declared_names};
use std::alloc::Global;

/// These names, without regard to case.
fn names_of(alloc: Global, all: &[DeclaredName]) -> Result<NameSet, NoMemory>
    ensures { IfOk result (λ names. AreKeys (map (λ one. one.name.now) all.now) names) }
{
    let mut names = NameSet::new(alloc);
    for one in all {
        names.add(alloc, one.name.as_bytes())?;
    }
    Ok(names)
}

/// The names of files, of items of level 01 or 77, and of level-01 screens.
fn declared(alloc: Global, front: &Front) -> Result<NameSet, NoMemory>
    ensures { IfOk result (λ names. AreKeys (map (λ one. one.name) (declared front.now)) names) }
{
    let all = declared_names(alloc, front)?;
    let names = names_of(alloc, all.as_slice())?;
    Ok(names)
}

/// Whether a name is taken; it is from now on.
fn take_name(alloc: Global, names: &mut NameSet, name: &ByteText) -> Result<bool, NoMemory>
    ensures { (others : List (List ℕ)) → AreKeys others names.old → IfOk result (λ taken. (taken ≡ list_any (λ other. same_name name.now other) others) × AreKeys (others ++ name.now ∷ []) names.new) }
{
    let is_taken = names.has(alloc, name.as_bytes())?;
    names.add(alloc, name.as_bytes())?;
    Ok(is_taken)
}

/// Whether a paragraph's name is taken; it is from now on.
fn take(alloc: Global, names: &mut NameSet, paragraph: &Paragraph) -> Result<bool, NoMemory>
    ensures { (front : Front) (before : List Paragraph) → AreKeys (taken_names front before) names.old → IfOk result (λ taken. (taken ≡ is_taken front before paragraph.now.name) × AreKeys (taken_names front (before ++ paragraph.now ∷ [])) names.new) }
{
    match &paragraph.name {
        Some(name) => Ok(take_name(alloc, names, name)?),
        None => Ok(false),
    }
}

/// Notes each paragraph whose name stands for something else before it.
pub fn note_double_paragraphs(
    alloc: Global,
    faults: &mut Faults,
    program: &Program,
) -> Result<(), NoMemory>
    ensures { OnOk result (faults.new.found.items ≡ faults.old.found.items ++ faults_at 3 (double_paragraphs program.now)) }
{
    let mut names = declared(alloc, &program.front)?;
    for paragraph in program.paragraphs.as_slice() {
        let is_taken = take(alloc, &mut names, paragraph)?;
        faults.note(3, paragraph.line, is_taken)?;
    }
    Ok(())
}
