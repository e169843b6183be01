ghost use Rattle.std.specs.Prelude.{◌≡◌, ◌++◌, List, map, option_to_list, option_map, IfOk, OnOk};
ghost use Rattle.std.specs.List.{flat_map};
ghost use Rattle.std.specs.Option.{option_copied};
ghost use Rattle.data_names.specs.Seen.{seen_references};
ghost use Rattle.entry_clauses.specs.Clauses.{alternates, alternate_named};
ghost use Rattle.name_rules.specs.Mentions.{reference_in, references_of_file, references_of_screen};
ghost use Rattle.statement_parts.specs.Statements.{statements};
ghost use Rattle.cobol_checker.specs.References.{references_of, references_of_statement};

use cob_base::{
    FileClause, FileEntry, Located, NoMemory, Operand, Paragraph, Program, Reference, ScreenEntry,
    Statement,
};
use data_names::{files, screen_entries};
use entry_clauses::{file_clauses, screen_clauses};
use statement_parts::{all_statements, conditions_of, items_of};
use std::alloc::Global;

/// The references of a program to items and to 88 entries, but for CRT STATUS.
pub fn references_of<'a>(
    alloc: Global,
    program: &'a Program,
) -> Result<Vec<&'a Reference>, NoMemory>
    ensures { IfOk result (λ made. seen_references made.items ≡ references_of program.entry.now) }
{
    let mut all = Vec::new(alloc);
    add_files(&mut all, files(&program.front))?;
    add_screens(&mut all, screen_entries(&program.front))?;
    add_paragraphs(alloc, &mut all, program.paragraphs.as_slice())?;
    Ok(all)
}

fn add_files<'a>(all: &mut Vec<&'a Reference>, files: &'a [FileEntry]) -> Result<(), NoMemory>
    ensures { OnOk result (seen_references all.exit.now.items ≡ seen_references all.entry.now.items ++ flat_map references_of_file files.entry.now) }
{
    for file in files {
        add_file(all, file)?;
    }
    Ok(())
}

/// The prime key of a file, its alternate keys and its FILE STATUS.
fn add_file<'a>(all: &mut Vec<&'a Reference>, file: &'a FileEntry) -> Result<(), NoMemory>
    ensures { OnOk result (seen_references all.exit.now.items ≡ seen_references all.entry.now.items ++ references_of_file file.entry.now) }
{
    let clauses = file.clauses.as_slice();
    add_optional(all, file_clauses::record_key(clauses))?;
    add_alternates(all, clauses)?;
    add_optional(all, file_clauses::file_status(clauses))?;
    Ok(())
}

fn add_alternates<'a>(
    all: &mut Vec<&'a Reference>,
    clauses: &'a [FileClause],
) -> Result<(), NoMemory>
    ensures { OnOk result (seen_references all.exit.now.items ≡ seen_references all.entry.now.items ++ map (λ alternate. alternate.key) (alternates clauses.entry.now)) }
{
    for clause in clauses {
        add_optional(all, alternate_key(clause))?;
    }
    Ok(())
}

/// What an ALTERNATE clause names.
fn alternate_key(clause: &FileClause) -> Option<&Reference>
    ensures { option_copied result ≡ option_map (λ alternate. alternate.key) (alternate_named clause.now) }
{
    match clause {
        FileClause::AlternateKey { key, .. } => Some(key),
        _ => None,
    }
}

fn add_screens<'a>(all: &mut Vec<&'a Reference>, entries: &'a [ScreenEntry]) -> Result<(), NoMemory>
    ensures { OnOk result (seen_references all.exit.now.items ≡ seen_references all.entry.now.items ++ flat_map references_of_screen entries.entry.now) }
{
    for entry in entries {
        add_screen(all, entry)?;
    }
    Ok(())
}

/// What FROM, TO and USING name.
fn add_screen<'a>(all: &mut Vec<&'a Reference>, entry: &'a ScreenEntry) -> Result<(), NoMemory>
    ensures { OnOk result (seen_references all.exit.now.items ≡ seen_references all.entry.now.items ++ references_of_screen entry.entry.now) }
{
    let clauses = entry.clauses.as_slice();
    add_operand(all, screen_clauses::sender(clauses))?;
    add_optional(all, screen_clauses::receiver(clauses))?;
    add_optional(all, screen_clauses::both_ways(clauses))?;
    Ok(())
}

fn add_operand<'a>(
    all: &mut Vec<&'a Reference>,
    operand: Option<&'a Operand>,
) -> Result<(), NoMemory>
    ensures { OnOk result (seen_references all.exit.now.items ≡ seen_references all.entry.now.items ++ reference_in (option_copied operand.entry)) }
{
    if let Some(Operand::Reference(reference)) = operand {
        all.push(reference)?;
    }
    Ok(())
}

fn add_optional<'a>(
    all: &mut Vec<&'a Reference>,
    reference: Option<&'a Reference>,
) -> Result<(), NoMemory>
    ensures { OnOk result (seen_references all.exit.now.items ≡ seen_references all.entry.now.items ++ option_to_list (option_copied reference.entry)) }
{
    if let Some(reference) = reference {
        all.push(reference)?;
    }
    Ok(())
}

fn add_paragraphs<'a>(
    alloc: Global,
    all: &mut Vec<&'a Reference>,
    paragraphs: &'a [Paragraph],
) -> Result<(), NoMemory>
    ensures { OnOk result (seen_references all.exit.now.items ≡ seen_references all.entry.now.items ++ flat_map references_of_statement (statements paragraphs.entry.now)) }
{
    let statements = all_statements(alloc, paragraphs)?;
    for one in statements.as_slice() {
        add_statement(alloc, all, *one)?;
    }
    Ok(())
}

fn add_statement<'a>(
    alloc: Global,
    all: &mut Vec<&'a Reference>,
    one: &'a Located<Statement>,
) -> Result<(), NoMemory>
    ensures { OnOk result (seen_references all.exit.now.items ≡ seen_references all.entry.now.items ++ references_of_statement one.entry.now) }
{
    let items = items_of(alloc, &one.item)?;
    add_all(all, items.as_slice())?;
    let conditions = conditions_of(alloc, &one.item)?;
    add_all(all, conditions.as_slice())?;
    Ok(())
}

fn add_all<'a>(all: &mut Vec<&'a Reference>, references: &[&'a Reference]) -> Result<(), NoMemory>
    ensures { OnOk result (seen_references all.exit.now.items ≡ seen_references all.entry.now.items ++ seen_references references.entry.now) }
{
    for reference in references {
        all.push(*reference)?;
    }
    Ok(())
}
