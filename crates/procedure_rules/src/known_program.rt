ghost use Rattle.std.specs.Prelude.{◌≡◌, IfOk};
ghost use Rattle.std.specs.Option.{option_copied, IfSome};
ghost use Rattle.data_names.specs.Parts.{files};
ghost use Rattle.procedure_names.specs.Firsts.{at_number};
ghost use Rattle.procedure_rules.specs.KnownFiles.{IsKnownFile, seen_file};
ghost use Rattle.procedure_rules.specs.KnownProgram.{IsKnownProgram};
ghost use Rattle.procedure_names.specs.Names.{file_named, file_of_record, record_named};
ghost use Rattle.procedure_names.specs.Scoped.{IsScope, front_in, items_in};

use crate::known_files::{KnownFile, known_files};
use cob_base::{ByteText, NoMemory};
use data_names::files;
use procedure_names::Scope;
use std::alloc::Global;
use value_rules::JudgedConditions;

/// What statements are judged by: what names stand for, what the clauses of each file say, and which 88 entries have a constant that
/// their item can't be compared with.
#[derive(Drop)]
pub struct KnownProgram<'a> {
    pub scope: &'a Scope<'a>,
    files: Vec<KnownFile<'a>>,
    pub judged: JudgedConditions,
}

impl<'a> KnownProgram<'a> {
    /// That of a scope's program.
    pub fn of(alloc: Global, scope: &'a Scope<'a>) -> Result<KnownProgram<'a>, NoMemory>
        requires { IsScope scope.now }
        ensures known { IfOk result (λ known. IsKnownProgram known) }
        ensures scope { IfOk result (λ known. known.scope.now ≡ scope.entry.now) }
    {
        let known = known_files(alloc, scope, files(&scope.program.front))?;
        let judged = JudgedConditions::of(alloc, scope)?;
        Ok(KnownProgram {
            scope,
            files: known,
            judged,
        })
    }

    /// The file of a control entry's number.
    fn file_at(&self, number: Option<usize>) -> Option<&KnownFile<'a>>
        requires { IsKnownProgram self.now }
        ensures entry { seen_file (option_copied result) ≡ at_number (files (front_in self.entry.now.scope.now)) number }
        ensures known { IfSome (option_copied result) (IsKnownFile (items_in self.entry.now.scope.now)) }
    {
        file_in(self.files.as_slice(), number)
    }

    /// The file of a name.
    pub fn file_named(
        &self,
        alloc: Global,
        name: &ByteText,
    ) -> Result<Option<&KnownFile<'a>>, NoMemory>
        requires { IsKnownProgram self.now }
        ensures entry { IfOk result (λ found. seen_file (option_copied found) ≡ file_named (front_in self.entry.now.scope.now) name.now) }
        ensures known { IfOk result (λ found. IfSome (option_copied found) (IsKnownFile (items_in self.entry.now.scope.now))) }
    {
        let number = self.scope.file_number(alloc, name)?;
        Ok(self.file_at(number))
    }

    /// The file under which the record of a name stands.
    pub fn file_of_record(
        &self,
        alloc: Global,
        name: &ByteText,
    ) -> Result<Option<&KnownFile<'a>>, NoMemory>
        requires { IsKnownProgram self.now }
        ensures entry { IfOk result (λ found. seen_file (option_copied found) ≡ file_of_record (front_in self.entry.now.scope.now) (record_named (items_in self.entry.now.scope.now) name.now)) }
        ensures known { IfOk result (λ found. IfSome (option_copied found) (IsKnownFile (items_in self.entry.now.scope.now))) }
    {
        match self.scope.record_named(alloc, name)? {
            Some(at) => {
                let number = self.scope.file_of_record(alloc, at)?;
                Ok(self.file_at(number))
            }
            None => Ok(None),
        }
    }
}

/// The file of a number among these.
fn file_in<'a, 'b>(files: &'b [KnownFile<'a>], number: Option<usize>) -> Option<&'b KnownFile<'a>>
    ensures { option_copied result ≡ at_number files.entry.now number }
{
    match number {
        Some(number) => files.get(number),
        None => None,
    }
}
