ghost use Rattle.std.specs.Prelude.{◌≡◌, ◌++◌, ◌∷◌, [], List, ℕ, map, IfOk, OnOk, option_to_list};
ghost use Rattle.std.specs.List.{flat_map};
ghost use Rattle.statement_parts.specs.declared.names.NameKind.TheVariants as kinds;
ghost use Rattle.statement_parts.specs.References.{wanted, files_of_phrase, names_of};
ghost use Rattle.statement_parts.specs.Seen.{seen_wanted};

use cob_base::{ByteText, NoMemory, OpenPhrase, Statement};
use std::alloc::Global;

/// What a name of a statement is to stand for.
#[derive(Clone, Copy, Debug, PartialEq, Eq)]
pub enum NameKind {
    File,
    /// A file's level-01 record.
    Record,
    /// A level-01 screen.
    Screen,
    Paragraph,
}

/// A name, and what it is to stand for.
#[derive(Clone, Copy, Debug)]
pub struct Wanted<'a> {
    pub kind: NameKind,
    pub name: &'a ByteText,
}

fn add<'a>(all: &mut Vec<Wanted<'a>>, kind: NameKind, name: &'a ByteText) -> Result<(), NoMemory>
    ensures { OnOk result (map seen_wanted all.exit.now.items ≡ map seen_wanted all.entry.now.items ++ wanted kind name.entry.now ∷ []) }
{
    all.push(Wanted { kind, name })?;
    Ok(())
}

fn add_files<'a>(all: &mut Vec<Wanted<'a>>, names: &'a [ByteText]) -> Result<(), NoMemory>
    ensures { OnOk result (map seen_wanted all.exit.now.items ≡ map seen_wanted all.entry.now.items ++ map (wanted kinds.File) names.entry.now) }
{
    for name in names {
        add(all, NameKind::File, name)?;
    }
    Ok(())
}

fn add_open<'a>(all: &mut Vec<Wanted<'a>>, phrases: &'a [OpenPhrase]) -> Result<(), NoMemory>
    ensures { OnOk result (map seen_wanted all.exit.now.items ≡ map seen_wanted all.entry.now.items ++ map (wanted kinds.File) (flat_map files_of_phrase phrases.entry.now)) }
{
    for phrase in phrases {
        if let OpenPhrase::Files { files, .. } = phrase {
            add_files(all, files.as_slice())?;
        }
    }
    Ok(())
}

fn add_range<'a>(
    all: &mut Vec<Wanted<'a>>,
    first: &'a ByteText,
    last: &'a Option<ByteText>,
) -> Result<(), NoMemory>
    ensures { OnOk result (map seen_wanted all.exit.now.items ≡ map seen_wanted all.entry.now.items ++ wanted kinds.Paragraph first.entry.now ∷ map (wanted kinds.Paragraph) (option_to_list last.entry.now)) }
{
    add(all, NameKind::Paragraph, first)?;
    if let Some(last) = last {
        add(all, NameKind::Paragraph, last)?;
    }
    Ok(())
}

fn add_names<'a>(all: &mut Vec<Wanted<'a>>, statement: &'a Statement) -> Result<(), NoMemory>
    ensures { OnOk result (map seen_wanted all.exit.now.items ≡ map seen_wanted all.entry.now.items ++ names_of statement.entry.now) }
{
    match statement {
        Statement::PerformParagraphs { first, last, .. } => add_range(all, first, last),
        Statement::Open(phrases) => add_open(all, phrases.as_slice()),
        Statement::Close(files) => add_files(all, files.as_slice()),
        Statement::Read { file, .. } => add(all, NameKind::File, file),
        Statement::Start { file, .. } => add(all, NameKind::File, file),
        Statement::Write { record, .. } => add(all, NameKind::Record, record),
        Statement::Rewrite { record, .. } => add(all, NameKind::Record, record),
        Statement::Delete { file, .. } => add(all, NameKind::File, file),
        Statement::Unlock(file) => add(all, NameKind::File, file),
        Statement::Accept { screen, .. } => add(all, NameKind::Screen, screen),
        Statement::Display(screen) => add(all, NameKind::Screen, screen),
        _ => Ok(()),
    }
}

/// The names of files, records, screens and paragraphs in a statement, without the statements inside it.
pub fn names_of<'a>(alloc: Global, statement: &'a Statement) -> Result<Vec<Wanted<'a>>, NoMemory>
    ensures { IfOk result (λ made. map seen_wanted made.items ≡ names_of statement.entry.now) }
{
    let mut all = Vec::new(alloc);
    add_names(&mut all, statement)?;
    Ok(all)
}
