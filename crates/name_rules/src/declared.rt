ghost use Rattle.std.specs.Prelude.{◌≡◌, [], ◌∷◌, ◌++◌, map, IfOk, OnOk};
ghost use Rattle.std.specs.List.{flat_map};
ghost use Rattle.std.specs.Option.{option_copied};
ghost use Rattle.name_rules.specs.DoubleNames.{declared, declared_as, declared_file, declared_item, declared_items, declared_screen};
ghost use Rattle.name_rules.specs.SeenNames.{seen_class, seen_declared, named_as, declared_entry, declared_control};

use cob_base::{
    ByteText, DataEntry, FileDescription, FileEntry, Front, ItemEntry, Line, NoMemory, ScreenEntry,
};
use data_names::{descriptions, files, screen_entries, working_storage};
use std::alloc::Global;

/// What a name is declared as.
#[derive(Clone, Copy, Debug, PartialEq, Eq)]
pub enum NameClass {
    /// A file, in its control entry.
    ControlEntry,
    /// A file, in its description.
    Description,
    /// An item of level 01 or 77.
    DataItem,
    /// A screen of level 01.
    Screen,
}

/// A name of the whole program, where it is declared.
#[derive(Clone, Copy, Debug)]
pub struct DeclaredName<'a> {
    /// The line of the entry's first word.
    pub line: Line,
    pub name: &'a ByteText,
    pub class: NameClass,
}

/// The names of files, items of level 01 or 77 and screens, in the order of the text.
pub fn declared_names<'a>(
    alloc: Global,
    front: &'a Front,
) -> Result<Vec<DeclaredName<'a>>, NoMemory>
    ensures { IfOk result (λ made. map seen_declared made.items ≡ declared front.entry.now) }
{
    let mut names = Vec::new(alloc);
    add_files(&mut names, files(front))?;
    add_descriptions(&mut names, descriptions(front))?;
    add_items(&mut names, working_storage(front))?;
    add_screens(&mut names, screen_entries(front))?;
    Ok(names)
}

fn add_files<'a>(names: &mut Vec<DeclaredName<'a>>, files: &'a [FileEntry]) -> Result<(), NoMemory>
    ensures { OnOk result (map seen_declared names.exit.now.items ≡ map seen_declared names.entry.now.items ++ map declared_control files.entry.now) }
{
    for file in files {
        add(names, NameClass::ControlEntry, file.line, &file.name)?;
    }
    Ok(())
}

/// Adds the descriptions of files with their items of level 01 or 77.
fn add_descriptions<'a>(
    names: &mut Vec<DeclaredName<'a>>,
    files: &'a [FileDescription],
) -> Result<(), NoMemory>
    ensures { OnOk result (map seen_declared names.exit.now.items ≡ map seen_declared names.entry.now.items ++ flat_map declared_file files.entry.now) }
{
    for file in files {
        add_description(names, file)?;
    }
    Ok(())
}

fn add_description<'a>(
    names: &mut Vec<DeclaredName<'a>>,
    file: &'a FileDescription,
) -> Result<(), NoMemory>
    ensures { OnOk result (map seen_declared names.exit.now.items ≡ map seen_declared names.entry.now.items ++ declared_file file.entry.now) }
{
    add(names, NameClass::Description, file.line, &file.name)?;
    add_items(names, file.records.as_slice())?;
    Ok(())
}

/// Adds the items of level 01 or 77 among some entries.
fn add_items<'a>(
    names: &mut Vec<DeclaredName<'a>>,
    entries: &'a [DataEntry],
) -> Result<(), NoMemory>
    ensures { OnOk result (map seen_declared names.exit.now.items ≡ map seen_declared names.entry.now.items ++ declared_items entries.entry.now) }
{
    for entry in entries {
        add_entry(names, entry)?;
    }
    Ok(())
}

fn add_entry<'a>(names: &mut Vec<DeclaredName<'a>>, entry: &'a DataEntry) -> Result<(), NoMemory>
    ensures { OnOk result (map seen_declared names.exit.now.items ≡ map seen_declared names.entry.now.items ++ declared_entry entry.entry.now) }
{
    match entry {
        DataEntry::Item(item) => add_item(names, item),
        DataEntry::Condition(_) => Ok(()),
    }
}

fn add_item<'a>(names: &mut Vec<DeclaredName<'a>>, entry: &'a ItemEntry) -> Result<(), NoMemory>
    ensures { OnOk result (map seen_declared names.exit.now.items ≡ map seen_declared names.entry.now.items ++ declared_item entry.entry.now) }
{
    if entry.level == 1 || entry.level == 77 {
        return add_optional(names, NameClass::DataItem, entry.line, entry.name.as_ref());
    }
    Ok(())
}

/// Adds the screens of level 01.
fn add_screens<'a>(
    names: &mut Vec<DeclaredName<'a>>,
    entries: &'a [ScreenEntry],
) -> Result<(), NoMemory>
    ensures { OnOk result (map seen_declared names.exit.now.items ≡ map seen_declared names.entry.now.items ++ flat_map declared_screen entries.entry.now) }
{
    for entry in entries {
        add_screen(names, entry)?;
    }
    Ok(())
}

fn add_screen<'a>(names: &mut Vec<DeclaredName<'a>>, entry: &'a ScreenEntry) -> Result<(), NoMemory>
    ensures { OnOk result (map seen_declared names.exit.now.items ≡ map seen_declared names.entry.now.items ++ declared_screen entry.entry.now) }
{
    if entry.level == 1 {
        return add_optional(names, NameClass::Screen, entry.line, entry.name.as_ref());
    }
    Ok(())
}

fn add_optional<'a>(
    names: &mut Vec<DeclaredName<'a>>,
    class: NameClass,
    line: Line,
    name: Option<&'a ByteText>,
) -> Result<(), NoMemory>
    ensures { OnOk result (map seen_declared names.exit.now.items ≡ map seen_declared names.entry.now.items ++ declared_as (seen_class class) line (option_copied name.entry)) }
{
    match name {
        Some(name) => add(names, class, line, name),
        None => Ok(()),
    }
}

fn add<'a>(
    names: &mut Vec<DeclaredName<'a>>,
    class: NameClass,
    line: Line,
    name: &'a ByteText,
) -> Result<(), NoMemory>
    ensures { OnOk result (map seen_declared names.exit.now.items ≡ map seen_declared names.entry.now.items ++ named_as line name.entry.now (seen_class class) ∷ []) }
{
    names.push(DeclaredName { line, name, class })?;
    Ok(())
}
