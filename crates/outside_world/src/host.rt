ghost use Rattle.std.specs.Prelude.{◌≡◌, ◌≤◌, None, IfOk, IfSome, length};

use crate::{Shelf, ShelfFail, Sink, SinkFail};
use std::alloc::Global;
use std::fs;
use std::fs::File;
use std::io::{ErrorKind, Read, Write};
use std::rt::Files;

/// The files of the current folder. It tells nothing of what they hold. A name that no file has is not held; a folder,
/// a refused permission and every other failure is a fault.
#[derive(Drop)]
pub struct HostShelf<'a, R> {
    files: &'a R,
    read_faults: u64,
    write_faults: u64,
}

impl<'a, R: Files> HostShelf<'a, R> {
    /// The shelf of these files, with no fault yet.
    pub fn new(files: &'a R) -> HostShelf<'a, R>
        ensures read_faults { ⟦<HostShelf<'a, R> as Shelf>⟧.read_faults result ≡ 0 }
        ensures write_faults { ⟦<HostShelf<'a, R> as Shelf>⟧.write_faults result ≡ 0 }
    {
        HostShelf {
            files,
            read_faults: 0,
            write_faults: 0,
        }
    }
}

fn read_file<R: Files>(
    files: &R,
    alloc: Global,
    name: &str,
    most: usize,
) -> Result<Option<Vec<u8>>, ShelfFail>
    ensures within { IfOk result (λ r. IfSome r (λ v. length v.items ≤ most)) }
{
    let file = match File::open(files, name) {
        Ok(file) => file,
        Err(error) => {
            if error.kind() == ErrorKind::NotFound {
                return Ok(None);
            }
            return Err(ShelfFail::Failed);
        }
    };
    let mut bytes = Vec::new(alloc);
    // One byte more than is wanted shows that the file is too long.
    let limit = (most as u64).saturating_add(1);
    if let Err(error) = file.take(limit).read_to_end(&mut bytes) {
        if error.kind() == ErrorKind::OutOfMemory {
            return Err(ShelfFail::NoMemory);
        }
        return Err(ShelfFail::Failed);
    }
    if bytes.len() > most {
        return Err(ShelfFail::TooLong);
    }
    Ok(Some(bytes))
}

impl<R: Files> Shelf for HostShelf<'_, R> {
    ghost held = { λ _. None };

    ghost read_faults = { λ shelf. shelf.read_faults };

    ghost write_faults = { λ shelf. shelf.write_faults };

    fn read(
        &mut self,
        alloc: Global,
        name: &str,
        most: usize,
    ) -> Result<Option<Vec<u8>>, ShelfFail> {
        match read_file(self.files, alloc, name, most) {
            Ok(found) => Ok(found),
            Err(ShelfFail::Failed) => {
                self.read_faults = self.read_faults.saturating_add(1);
                Err(ShelfFail::Failed)
            }
            Err(fail) => Err(fail),
        }
    }

    fn write(&mut self, name: &str, bytes: &[u8]) -> Result<(), ShelfFail> {
        match fs::write(self.files, name, bytes) {
            Ok(()) => Ok(()),
            Err(_) => {
                self.write_faults = self.write_faults.saturating_add(1);
                Err(ShelfFail::Failed)
            }
        }
    }
}

/// A sink over any writer. A write that takes no byte of a piece that has some is a fault.
#[derive(Drop)]
pub struct StdSink<W> {
    writer: W,
    faults: u64,
}

impl<W: Write> StdSink<W> {
    /// The sink over this writer, with no fault yet.
    pub fn new(writer: W) -> StdSink<W>
        ensures taken { ⟦<StdSink<W> as Sink>⟧.taken result ≡ W.contents writer }
        ensures faults { ⟦<StdSink<W> as Sink>⟧.faults result ≡ 0 }
    {
        StdSink { writer, faults: 0 }
    }
}

impl<W: Write> Sink for StdSink<W> {
    ghost taken = { λ sink. W.contents sink.writer };

    ghost faults = { λ sink. sink.faults };

    fn put(&mut self, bytes: &[u8]) -> Result<usize, SinkFail> {
        match self.writer.write(bytes) {
            Ok(count) if 0 < count || bytes.is_empty() => Ok(count),
            _ => {
                self.faults = self.faults.saturating_add(1);
                Err(SinkFail::Failed)
            }
        }
    }
}
