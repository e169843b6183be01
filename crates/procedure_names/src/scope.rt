ghost use Rattle.std.specs.Prelude.{◌≡◌, ◌<◌, List, Some, length, map, is_some, IfOk, slice_get};
ghost use Rattle.std.specs.List.{list_any};
ghost use Rattle.std.specs.Option.{option_copied};
ghost use Rattle.data_names.specs.Parts.{files, descriptions, screen_entries};
ghost use Rattle.data_names.specs.Items.{AreDataItems};
ghost use Rattle.data_names.specs.Spots.{spots};
ghost use Rattle.data_names.specs.Seen.{seen_item};
ghost use Rattle.data_names.specs.Table.{IsTable, items_of};
ghost use Rattle.key_rules.specs.Descriptions.{AreDescriptions};
ghost use Rattle.statement_parts.specs.Seen.{seen_wanted};
ghost use Rattle.procedure_names.specs.Firsts.{at_number, AreFirsts};
ghost use Rattle.procedure_names.specs.Names.{is_known, is_screen_of, file_named, record_named, file_of_description, file_of_number, file_of_record, record_of_file, paragraph_named};
ghost use Rattle.procedure_names.specs.Scoped.{name_of_record, name_of_screen, front_in, items_in, IsScope};
ghost use Rattle.procedure_names.specs.SeenConditions.{IsSpotAt};

use crate::conditions::Conditions;
use crate::firsts::Firsts;
use cob_base::{
    ByteText, FileDescription, FileEntry, Front, NoMemory, Paragraph, Program, ScreenEntry,
};
use data_names::{KnownItem, Table, descriptions, files, screen_entries};
use key_rules::Descriptions;
use statement_parts::{NameKind, Wanted};
use std::alloc::Global;

/// What the names in a procedure division may stand for.
#[derive(Drop)]
pub struct Scope<'a> {
    pub program: &'a Program,
    pub table: &'a Table<'a>,
    descriptions: &'a Descriptions,
    pub conditions: Conditions<'a>,
    files: Firsts,
    records: Firsts,
    screens: Firsts,
    paragraphs: Firsts,
}

impl<'a> Scope<'a> {
    /// That of a program with these items and descriptions of files.
    pub fn of(
        alloc: Global,
        program: &'a Program,
        table: &'a Table<'a>,
        descriptions: &'a Descriptions,
    ) -> Result<Scope<'a>, NoMemory>
        requires table { IsTable table.now }
        requires items { AreDataItems program.now.front (items_of table.now) }
        requires descriptions { AreDescriptions program.now.front (items_of table.now) descriptions.now }
        ensures { IfOk result (λ scope. IsScope scope × (scope.program.now ≡ program.entry.now) × (scope.table.now ≡ table.entry.now)) }
    {
        let conditions = Conditions::of(
            alloc,
            &program.front,
            table,
            program.paragraphs.as_slice(),
        )?;
        let file_names = names_of_files(alloc, files(&program.front))?;
        let record_names = names_of_records(alloc, table.items)?;
        let screen_names = names_of_screens(alloc, screen_entries(&program.front))?;
        let paragraph_names = names_of_paragraphs(alloc, program.paragraphs.as_slice())?;
        Ok(Scope {
            program,
            table,
            descriptions,
            conditions,
            files: file_names,
            records: record_names,
            screens: screen_names,
            paragraphs: paragraph_names,
        })
    }

    /// The number of the file control entry of a name.
    pub fn file_number(&self, alloc: Global, name: &ByteText) -> Result<Option<usize>, NoMemory>
        requires { IsScope self.now }
        ensures { IfOk result (λ number. at_number (files (front_in self.now)) number ≡ file_named (front_in self.now) name.now) }
    {
        let number = self.files.number_of(alloc, name)?;
        Ok(number)
    }

    /// The file control entry of a name.
    pub fn file_named(
        &self,
        alloc: Global,
        name: &ByteText,
    ) -> Result<Option<&'a FileEntry>, NoMemory>
        requires { IsScope self.now }
        ensures { IfOk result (λ file. option_copied file ≡ file_named (front_in self.entry.now) name.now) }
    {
        let number = self.file_number(alloc, name)?;
        Ok(file_at(files(&self.program.front), number))
    }

    /// The number of the item that is the record of a name.
    pub fn record_named(&self, alloc: Global, name: &ByteText) -> Result<Option<usize>, NoMemory>
        requires { IsScope self.now }
        ensures { IfOk result (λ number. IsSpotAt (items_in self.now) (record_named (items_in self.now) name.now) number) }
    {
        let number = self.records.number_of(alloc, name)?;
        Ok(number)
    }

    /// The number of the control entry of the file under which an item stands.
    pub fn file_of_record(&self, alloc: Global, item: usize) -> Result<Option<usize>, NoMemory>
        requires scope { IsScope self.now }
        requires within { item < length (items_in self.now) }
        ensures { IfOk result (λ number. at_number (files (front_in self.now)) number ≡ file_of_record (front_in self.now) (slice_get (spots (items_in self.now)) item)) }
    {
        let number = self.file_of_number(alloc, self.table.item_at(item).source.file)?;
        Ok(number)
    }

    /// The number of the control entry of the file of a description's number.
    fn file_of_number(
        &self,
        alloc: Global,
        number: Option<usize>,
    ) -> Result<Option<usize>, NoMemory>
        requires { IsScope self.now }
        ensures { IfOk result (λ file. at_number (files (front_in self.now)) file ≡ file_of_number (front_in self.now) number) }
    {
        match number {
            Some(number) => self.file_of_description(
                alloc,
                description_at(&self.program.front, number),
            ),
            None => Ok(None),
        }
    }

    /// The number of the control entry of the file of a description.
    fn file_of_description(
        &self,
        alloc: Global,
        description: Option<&FileDescription>,
    ) -> Result<Option<usize>, NoMemory>
        requires { IsScope self.now }
        ensures { IfOk result (λ file. at_number (files (front_in self.now)) file ≡ file_of_description (front_in self.now) (option_copied description.entry)) }
    {
        match description {
            Some(description) => self.file_number(alloc, &description.name),
            None => Ok(None),
        }
    }

    /// The number of the item that is a file's record.
    pub fn record_of_file(&self, alloc: Global, file: &FileEntry) -> Result<Option<usize>, NoMemory>
        requires { IsScope self.now }
        ensures { IfOk result (λ number. IsSpotAt (items_in self.now) (record_of_file (front_in self.now) (items_in self.now) file.now) number) }
    {
        let description = self.descriptions.of_file(alloc, file)?;
        match description {
            Some(description) => Ok(description.record),
            None => Ok(None),
        }
    }

    /// The number of the paragraph of a name.
    pub fn paragraph_named(&self, alloc: Global, name: &ByteText) -> Result<Option<usize>, NoMemory>
        requires { IsScope self.now }
        ensures { IfOk result (λ number. number ≡ paragraph_named self.now.program.now.paragraphs name.now) }
    {
        let number = self.paragraphs.number_of(alloc, name)?;
        Ok(number)
    }

    fn is_file(&self, alloc: Global, name: &ByteText) -> Result<bool, NoMemory>
        requires { IsScope self.now }
        ensures { IfOk result (λ known. known ≡ is_some (file_named (front_in self.now) name.now)) }
    {
        let number = self.files.number_of(alloc, name)?;
        Ok(number.is_some())
    }

    fn is_record(&self, alloc: Global, name: &ByteText) -> Result<bool, NoMemory>
        requires { IsScope self.now }
        ensures { IfOk result (λ known. known ≡ is_some (record_named (items_in self.now) name.now)) }
    {
        let number = self.records.number_of(alloc, name)?;
        Ok(number.is_some())
    }

    fn is_screen(&self, alloc: Global, name: &ByteText) -> Result<bool, NoMemory>
        requires { IsScope self.now }
        ensures { IfOk result (λ known. known ≡ list_any (is_screen_of name.now) (screen_entries (front_in self.now))) }
    {
        let number = self.screens.number_of(alloc, name)?;
        Ok(number.is_some())
    }

    fn is_paragraph(&self, alloc: Global, name: &ByteText) -> Result<bool, NoMemory>
        requires { IsScope self.now }
        ensures { IfOk result (λ known. known ≡ is_some (paragraph_named self.now.program.now.paragraphs name.now)) }
    {
        let number = self.paragraphs.number_of(alloc, name)?;
        Ok(number.is_some())
    }

    /// Whether a name stands for what it is to stand for.
    pub fn is_known(&self, alloc: Global, wanted: Wanted) -> Result<bool, NoMemory>
        requires { IsScope self.now }
        ensures { IfOk result (λ known. known ≡ is_known self.now.program.now (items_in self.now) (seen_wanted wanted.entry)) }
    {
        match wanted.kind {
            NameKind::File => self.is_file(alloc, wanted.name),
            NameKind::Record => self.is_record(alloc, wanted.name),
            NameKind::Screen => self.is_screen(alloc, wanted.name),
            NameKind::Paragraph => self.is_paragraph(alloc, wanted.name),
        }
    }
}

/// The description of a number, or none.
fn description_at(front: &Front, number: usize) -> Option<&FileDescription>
    ensures { option_copied result ≡ slice_get (descriptions front.entry.now) number }
{
    descriptions(front).get(number)
}

/// The file control entry of a number, or none.
fn file_at(files: &[FileEntry], number: Option<usize>) -> Option<&FileEntry>
    ensures { option_copied result ≡ at_number files.entry.now number }
{
    match number {
        Some(number) => files.get(number),
        None => None,
    }
}

fn names_of_files(alloc: Global, files: &[FileEntry]) -> Result<Firsts, NoMemory>
    ensures { IfOk result (λ names. AreFirsts (map (λ file. Some file.name) files.now) names) }
{
    let mut names = Firsts::new(alloc);
    for (number, file) in files.iter().enumerate() {
        names.add(alloc, &file.name, number)?;
    }
    Ok(names)
}

/// The name under which a record is known.
fn name_of_record<'a>(item: &KnownItem<'a>) -> Option<&'a ByteText>
    ensures { option_copied result ≡ name_of_record (seen_item item.entry.now) }
{
    if item.row.in_file && item.row.level == 1 {
        item.text.name.as_ref()
    } else {
        None
    }
}

/// The name under which a screen is known.
fn name_of_screen(entry: &ScreenEntry) -> Option<&ByteText>
    ensures { option_copied result ≡ name_of_screen entry.entry.now }
{
    if entry.level == 1 {
        entry.name.as_ref()
    } else {
        None
    }
}

/// The names of the items of level 01 under file descriptions.
fn names_of_records(alloc: Global, items: &[KnownItem]) -> Result<Firsts, NoMemory>
    ensures { IfOk result (λ names. AreFirsts (map name_of_record (map seen_item items.now)) names) }
{
    let mut names = Firsts::new(alloc);
    for (number, item) in items.iter().enumerate() {
        names.add_optional(alloc, name_of_record(item), number)?;
    }
    Ok(names)
}

fn names_of_screens(alloc: Global, entries: &[ScreenEntry]) -> Result<Firsts, NoMemory>
    ensures { IfOk result (λ names. AreFirsts (map name_of_screen entries.now) names) }
{
    let mut names = Firsts::new(alloc);
    for (number, entry) in entries.iter().enumerate() {
        names.add_optional(alloc, name_of_screen(entry), number)?;
    }
    Ok(names)
}

fn name_of_paragraph(paragraph: &Paragraph) -> Option<&ByteText>
    ensures { option_copied result ≡ paragraph.entry.now.name }
{
    paragraph.name.as_ref()
}

fn names_of_paragraphs(alloc: Global, paragraphs: &[Paragraph]) -> Result<Firsts, NoMemory>
    ensures { IfOk result (λ names. AreFirsts (map (λ paragraph. paragraph.name) paragraphs.now) names) }
{
    let mut names = Firsts::new(alloc);
    for (number, paragraph) in paragraphs.iter().enumerate() {
        names.add_optional(alloc, name_of_paragraph(paragraph), number)?;
    }
    Ok(names)
}
