ghost use Rattle.std.specs.Prelude.{◌≡◌, [], ◌∷◌, ◌++◌, List, map, filter, OnOk, IfOk, option_to_list, option_map};
ghost use Rattle.std.specs.List.{flat_map};
ghost use Rattle.std.specs.Option.{option_copied};
ghost use Rattle.data_names.specs.Parts.{files, crt_status, screen_entries};
ghost use Rattle.data_names.specs.Table.{IsTable, items_of};
ghost use Rattle.entry_clauses.specs.Clauses.{alternates, alternate_named};
ghost use Rattle.name_rules.specs.Mentions.{mention, item_of_subscript, references_of_file, reference_in, references_of_screen, reference_of_crt, references, subscript_items};
ghost use Rattle.name_rules.specs.SeenMentions.{AddsMentions, AreFoundAs, AreMentions, seen_mention};

use cob_base::{
    ByteText, CrtStatus, FileClause, FileEntry, Front, Line, NoMemory, Operand, Reference,
    ScreenEntry, Subscript,
};
use data_names::{Found, Table, crt_status, files, screen_entries};
use entry_clauses::{file_clauses, screen_clauses};
use std::alloc::Global;

/// A reference in an entry, and what it stands for.
#[derive(Clone, Copy, Debug)]
pub struct Mention<'a> {
    /// The line of the entry's first word.
    pub line: Line,
    pub name: &'a ByteText,
    pub qualifiers: &'a [ByteText],
    pub subscript: Option<&'a Subscript>,
    pub found: Found,
}

/// The references of a front.
#[derive(Drop)]
pub struct Mentions<'a> {
    /// Those of files, CRT STATUS and screens.
    pub references: Vec<Mention<'a>>,
    /// The items of their subscripts.
    pub subscripts: Vec<Mention<'a>>,
}

/// All references of a front.
pub fn all_mentions<'a>(
    alloc: Global,
    front: &'a Front,
    table: &Table,
) -> Result<Mentions<'a>, NoMemory>
    requires { IsTable table.now }
    ensures { IfOk result (λ made. AreMentions front.entry.now (items_of table.now) made) }
{
    let references = references_of(alloc, front, table)?;
    let subscripts = subscript_items(alloc, references.as_slice(), table)?;
    Ok(Mentions {
        references,
        subscripts,
    })
}

/// The references of a front but those in subscripts.
fn references_of<'a>(
    alloc: Global,
    front: &'a Front,
    table: &Table,
) -> Result<Vec<Mention<'a>>, NoMemory>
    requires { IsTable table.now }
    ensures { IfOk result (λ made. AreFoundAs (items_of table.now) (references front.entry.now) made.items) }
{
    let mut mentions = Vec::new(alloc);
    add_files(alloc, table, &mut mentions, files(front))?;
    add_crt(alloc, table, &mut mentions, crt_status(front))?;
    add_screens(alloc, table, &mut mentions, screen_entries(front))?;
    Ok(mentions)
}

/// The items of the subscripts of references.
pub fn subscript_items<'a>(
    alloc: Global,
    references: &[Mention<'a>],
    table: &Table,
) -> Result<Vec<Mention<'a>>, NoMemory>
    requires { IsTable table.now }
    ensures { IfOk result (λ made. AreFoundAs (items_of table.now) (flat_map (λ one. map (mention one.line) (item_of_subscript one.reference.subscript)) (map seen_mention references.entry.now)) made.items) }
{
    let mut subscripts = Vec::new(alloc);
    for one in references {
        add_subscript(alloc, table, &mut subscripts, one.line, one.subscript)?;
    }
    Ok(subscripts)
}

/// Those of files.
fn add_files<'a>(
    alloc: Global,
    table: &Table,
    mentions: &mut Vec<Mention<'a>>,
    files: &'a [FileEntry],
) -> Result<(), NoMemory>
    requires { IsTable table.now }
    ensures { OnOk result (AddsMentions (items_of table.now) (flat_map (λ file. map (mention file.line) (references_of_file file)) files.entry.now) mentions.entry.now.items mentions.exit.now.items) }
{
    for file in files {
        add_file(alloc, table, mentions, file)?;
    }
    Ok(())
}

/// Those of a file: its prime key, its alternate keys and its FILE STATUS.
fn add_file<'a>(
    alloc: Global,
    table: &Table,
    mentions: &mut Vec<Mention<'a>>,
    file: &'a FileEntry,
) -> Result<(), NoMemory>
    requires { IsTable table.now }
    ensures { OnOk result (AddsMentions (items_of table.now) (map (mention file.entry.now.line) (references_of_file file.entry.now)) mentions.entry.now.items mentions.exit.now.items) }
{
    let clauses = file.clauses.as_slice();
    add_optional(
        alloc,
        table,
        mentions,
        file.line,
        file_clauses::record_key(clauses),
    )?;
    add_alternates(alloc, table, mentions, file.line, clauses)?;
    add_optional(
        alloc,
        table,
        mentions,
        file.line,
        file_clauses::file_status(clauses),
    )?;
    Ok(())
}

/// The alternate keys of a file.
fn add_alternates<'a>(
    alloc: Global,
    table: &Table,
    mentions: &mut Vec<Mention<'a>>,
    line: Line,
    clauses: &'a [FileClause],
) -> Result<(), NoMemory>
    requires { IsTable table.now }
    ensures { OnOk result (AddsMentions (items_of table.now) (map (λ alternate. mention line alternate.key) (alternates clauses.entry.now)) mentions.entry.now.items mentions.exit.now.items) }
{
    for clause in clauses {
        add_optional(alloc, table, mentions, line, alternate_key(clause))?;
    }
    Ok(())
}

/// What an ALTERNATE clause names.
fn alternate_key(clause: &FileClause) -> Option<&Reference>
    ensures { option_copied result ≡ option_map (λ alternate. alternate.key) (alternate_named clause.now) }
{
    match clause {
        FileClause::AlternateKey { key, .. } => Some(key),
        _ => None,
    }
}

/// The item of CRT STATUS.
fn add_crt<'a>(
    alloc: Global,
    table: &Table,
    mentions: &mut Vec<Mention<'a>>,
    crt: Option<&'a CrtStatus>,
) -> Result<(), NoMemory>
    requires { IsTable table.now }
    ensures { OnOk result (AddsMentions (items_of table.now) (map (λ crt. mention crt.line (reference_of_crt crt)) (option_to_list (option_copied crt.entry))) mentions.entry.now.items mentions.exit.now.items) }
{
    match crt {
        Some(crt) => add_named(alloc, table, mentions, crt.line, &crt.name, &[], None),
        None => Ok(()),
    }
}

/// Those of the entries of screens.
fn add_screens<'a>(
    alloc: Global,
    table: &Table,
    mentions: &mut Vec<Mention<'a>>,
    entries: &'a [ScreenEntry],
) -> Result<(), NoMemory>
    requires { IsTable table.now }
    ensures { OnOk result (AddsMentions (items_of table.now) (flat_map (λ entry. map (mention entry.line) (references_of_screen entry)) entries.entry.now) mentions.entry.now.items mentions.exit.now.items) }
{
    for entry in entries {
        add_screen(alloc, table, mentions, entry)?;
    }
    Ok(())
}

/// Those of a screen's entry: what FROM, TO and USING name.
fn add_screen<'a>(
    alloc: Global,
    table: &Table,
    mentions: &mut Vec<Mention<'a>>,
    entry: &'a ScreenEntry,
) -> Result<(), NoMemory>
    requires { IsTable table.now }
    ensures { OnOk result (AddsMentions (items_of table.now) (map (mention entry.entry.now.line) (references_of_screen entry.entry.now)) mentions.entry.now.items mentions.exit.now.items) }
{
    let clauses = entry.clauses.as_slice();
    add_sender(
        alloc,
        table,
        mentions,
        entry.line,
        screen_clauses::sender(clauses),
    )?;
    add_optional(
        alloc,
        table,
        mentions,
        entry.line,
        screen_clauses::receiver(clauses),
    )?;
    add_optional(
        alloc,
        table,
        mentions,
        entry.line,
        screen_clauses::both_ways(clauses),
    )?;
    Ok(())
}

/// The item that FROM names.
fn add_sender<'a>(
    alloc: Global,
    table: &Table,
    mentions: &mut Vec<Mention<'a>>,
    line: Line,
    sender: Option<&'a Operand>,
) -> Result<(), NoMemory>
    requires { IsTable table.now }
    ensures { OnOk result (AddsMentions (items_of table.now) (map (mention line) (reference_in (option_copied sender.entry))) mentions.entry.now.items mentions.exit.now.items) }
{
    match sender {
        Some(Operand::Reference(reference)) => add(alloc, table, mentions, line, reference),
        Some(Operand::Constant(_)) => Ok(()),
        None => Ok(()),
    }
}

fn add_optional<'a>(
    alloc: Global,
    table: &Table,
    mentions: &mut Vec<Mention<'a>>,
    line: Line,
    reference: Option<&'a Reference>,
) -> Result<(), NoMemory>
    requires { IsTable table.now }
    ensures { OnOk result (AddsMentions (items_of table.now) (map (mention line) (option_to_list (option_copied reference.entry))) mentions.entry.now.items mentions.exit.now.items) }
{
    match reference {
        Some(reference) => add(alloc, table, mentions, line, reference),
        None => Ok(()),
    }
}

/// A reference, with what it stands for.
pub fn add<'a>(
    alloc: Global,
    table: &Table,
    mentions: &mut Vec<Mention<'a>>,
    line: Line,
    reference: &'a Reference,
) -> Result<(), NoMemory>
    requires { IsTable table.now }
    ensures { OnOk result (AddsMentions (items_of table.now) (mention line reference.entry.now ∷ []) mentions.entry.now.items mentions.exit.now.items) }
{
    add_named(
        alloc,
        table,
        mentions,
        line,
        &reference.name,
        reference.qualifiers.as_slice(),
        reference.subscript.as_ref(),
    )
}

/// The item of a subscript.
fn add_subscript<'a>(
    alloc: Global,
    table: &Table,
    mentions: &mut Vec<Mention<'a>>,
    line: Line,
    subscript: Option<&'a Subscript>,
) -> Result<(), NoMemory>
    requires { IsTable table.now }
    ensures { OnOk result (AddsMentions (items_of table.now) (map (mention line) (item_of_subscript (option_copied subscript.entry))) mentions.entry.now.items mentions.exit.now.items) }
{
    match subscript {
        Some(
            Subscript::Item {
                name,
                qualifiers,
                ..
            },
        ) => add_named(
            alloc,
            table,
            mentions,
            line,
            name,
            qualifiers.as_slice(),
            None,
        ),
        Some(Subscript::Number(_)) => Ok(()),
        None => Ok(()),
    }
}

fn add_named<'a>(
    alloc: Global,
    table: &Table,
    mentions: &mut Vec<Mention<'a>>,
    line: Line,
    name: &'a ByteText,
    qualifiers: &'a [ByteText],
    subscript: Option<&'a Subscript>,
) -> Result<(), NoMemory>
    requires { IsTable table.now }
    ensures { OnOk result (AddsMentions (items_of table.now) (mention line (record { name = name.entry.now; qualifiers = qualifiers.entry.now; subscript = option_copied subscript.entry }) ∷ []) mentions.entry.now.items mentions.exit.now.items) }
{
    let found = table.find(alloc, name, qualifiers)?;
    mentions.push(Mention {
        line,
        name,
        qualifiers,
        subscript,
        found,
    })?;
    Ok(())
}
