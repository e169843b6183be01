ghost use Rattle.std.specs.Prelude.{◌≡◌, ℕ, ◌^◌, ◌<◌, Some, length, min, IfOk, IfSome};
ghost use Rattle.std.specs.Bool.{OnTrue, OnFalse};
ghost use Rattle.std.specs.List.{position};
ghost use Rattle.std.specs.Option.{option_map};
ghost use Rattle.outside_world.specs.Stored.{lookup, has_name, Stores};

use crate::{Held, Shelf, ShelfFail};
use cob_base::{ByteText, NoMemory};
use std::alloc::Global;
use std::marker::Model;
use std::mem;

/// A name with room for its bytes. Contracts see it as the name and what is held under it.
#[derive(Drop)]
struct Slot {
    name: ByteText,
    is_held: bool,
    bytes: Vec<u8>,
    /// As much room again, in which the next bytes are laid down before they take the place of the old ones.
    spare: Vec<u8>,
}

impl Model for Slot {
    ghost use Rattle.std.specs.Prelude.{Some, None, if◌then◌else◌};
    ghost use Rattle.outside_world.specs.declared.shelf.Held.{Held};

    ghost Value = { Held };

    ghost view = { λ slot. record { name = slot.name; bytes = if slot.is_held then Some slot.bytes.items else None } };
}

impl Slot {
    /// The slot of a name, with room for so many bytes in each later write.
    fn make(alloc: Global, held: Held, room: usize) -> Result<Slot, NoMemory>
        ensures { IfOk result (λ slot. slot ≡ held) }
    {
        let Held { name, bytes: old } = held;
        let spare = Vec::with_capacity(alloc, room)?;
        match old {
            None => Ok(Slot {
                name,
                is_held: false,
                bytes: Vec::with_capacity(alloc, room)?,
                spare,
            }),
            Some(text) => {
                let mut bytes = Vec::with_capacity(alloc, room)?;
                bytes.extend_from_slice(text.as_bytes())?;
                Ok(Slot {
                    name,
                    is_held: true,
                    bytes,
                    spare,
                })
            }
        }
    }

    /// Holds these bytes from now on, and says whether there was room. It takes no memory where they are within it.
    fn store(&mut self, bytes: &[u8]) -> bool
        ensures stored { OnTrue result (self.new ≡ record { name = self.old.name; bytes = Some bytes.now }) }
        ensures same { OnFalse result (self.new ≡ self.old) }
    {
        self.spare.clear();
        if self.spare.extend_from_slice(bytes).is_err() {
            return false;
        }
        mem::swap(&mut self.bytes, &mut self.spare);
        self.is_held = true;
        true
    }

    /// What is held.
    fn held(&self) -> Option<&[u8]>
        ensures { option_map (λ bytes. bytes.now) result ≡ self.now.bytes }
    {
        if self.is_held {
            Some(self.bytes.as_slice())
        } else {
            None
        }
    }

    /// Whether this is its name.
    fn is_named(&self, name: &[u8]) -> bool
        ensures { result ≡ has_name name.now self.now }
    {
        self.name.as_bytes() == name
    }
}

/// A shelf in memory, for tests. The names are those of its files; of several of one name the first alone counts.
/// The reads and the writes whose numbers are listed fail; calls of a kind count from 1, and the count stays at
/// 2^32 - 1. A write that is to fail leaves the first `kept` of the new bytes, or all where they are fewer. A write to
/// a name that is not listed, or of more than `room` bytes, fails and leaves the shelf. The room is made when the
/// shelf is made.
#[derive(Drop)]
pub struct MemoryShelf {
    slots: Vec<Slot>,
    read_fails: Vec<u32>,
    write_fails: Vec<u32>,
    kept: usize,
    room: usize,
    reads: u32,
    writes: u32,
    read_faults: u64,
    write_faults: u64,
}

impl MemoryShelf {
    /// A shelf of these files, to which nothing has been written yet.
    pub fn make(
        alloc: Global,
        files: Vec<Held>,
        read_fails: Vec<u32>,
        write_fails: Vec<u32>,
        kept: u32,
        room: u32,
    ) -> Result<MemoryShelf, NoMemory>
        ensures held { IfOk result (λ shelf. ⟦<MemoryShelf as Shelf>⟧.held shelf ≡ Some files.items) }
        ensures read_faults { IfOk result (λ shelf. ⟦<MemoryShelf as Shelf>⟧.read_faults shelf ≡ 0) }
        ensures write_faults { IfOk result (λ shelf. ⟦<MemoryShelf as Shelf>⟧.write_faults shelf ≡ 0) }
        ensures fails { IfOk result (λ shelf. (shelf.read_fails ≡ read_fails) × (shelf.write_fails ≡ write_fails)) }
        ensures writes { IfOk result (λ shelf. (shelf.kept ≡ kept) × (shelf.room ≡ room)) }
    {
        Ok(MemoryShelf {
            slots: slots_of(alloc, files, room as usize)?,
            read_fails,
            write_fails,
            kept: kept as usize,
            room: room as usize,
            reads: 0,
            writes: 0,
            read_faults: 0,
            write_faults: 0,
        })
    }

    /// Puts the bytes under the name, where it is listed and there is room, and says whether it did.
    fn store(&mut self, name: &[u8], bytes: &[u8]) -> bool
        ensures stored { OnTrue result (Stores name.now (Some bytes.now) (Some self.old.slots.items) (Some self.new.slots.items)) }
        ensures same { OnFalse result (self.new.slots.items ≡ self.old.slots.items) }
        ensures read_faults { self.new.read_faults ≡ self.old.read_faults }
        ensures write_faults { self.new.write_faults ≡ self.old.write_faults }
    {
        if bytes.len() > self.room {
            return false;
        }
        match place_of(self.slots.as_slice(), name) {
            None => false,
            Some(place) => self.slots[place].store(bytes),
        }
    }
}

/// A slot for each file, in their order.
fn slots_of(alloc: Global, files: Vec<Held>, room: usize) -> Result<Vec<Slot>, NoMemory>
    ensures { IfOk result (λ slots. slots.items ≡ files.items) }
{
    let mut slots = Vec::new(alloc);
    for held in files {
        slots.push(Slot::make(alloc, held, room)?)?;
    }
    Ok(slots)
}

/// The place of the first slot of a name.
fn place_of(slots: &[Slot], name: &[u8]) -> Option<usize>
    ensures { result ≡ position (has_name name.now) slots.now }
{
    slots.iter().position(|slot| slot.is_named(name))
}

/// The bytes that the first slot of a name holds.
fn held_bytes<'a>(slots: &'a [Slot], name: &[u8]) -> Option<&'a [u8]>
    ensures { option_map (λ bytes. bytes.now) result ≡ lookup name.now slots.now }
{
    for slot in slots {
        if slot.is_named(name) {
            return slot.held();
        }
    }
    None
}

impl Shelf for MemoryShelf {
    ghost held = { λ shelf. Some shelf.slots.items };

    ghost read_faults = { λ shelf. shelf.read_faults };

    ghost write_faults = { λ shelf. shelf.write_faults };

    fn read(
        &mut self,
        alloc: Global,
        name: &str,
        most: usize,
    ) -> Result<Option<Vec<u8>>, ShelfFail> {
        self.reads = self.reads.saturating_add(1);
        if self.read_fails.contains(&self.reads) {
            self.read_faults = self.read_faults.saturating_add(1);
            return Err(ShelfFail::Failed);
        }
        match held_bytes(&self.slots, name.as_bytes()) {
            None => Ok(None),
            Some(bytes) => {
                if bytes.len() > most {
                    return Err(ShelfFail::TooLong);
                }
                Ok(Some(Vec::from_slice(alloc, bytes)?))
            }
        }
    }

    fn write(&mut self, name: &str, bytes: &[u8]) -> Result<(), ShelfFail> {
        self.writes = self.writes.saturating_add(1);
        if bytes.len() > self.room {
            self.write_faults = self.write_faults.saturating_add(1);
            return Err(ShelfFail::Failed);
        }
        if self.write_fails.contains(&self.writes) {
            let count = bytes.len().min(self.kept);
            let _ = self.store(name.as_bytes(), &bytes[..count]);
            self.write_faults = self.write_faults.saturating_add(1);
            return Err(ShelfFail::Failed);
        }
        if !self.store(name.as_bytes(), bytes) {
            self.write_faults = self.write_faults.saturating_add(1);
            return Err(ShelfFail::Failed);
        }
        Ok(())
    }
}
