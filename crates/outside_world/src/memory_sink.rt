ghost use Rattle.std.specs.Prelude.{◌≡◌, ◌<◌, [], Some, IfOk};

use crate::{Sink, SinkFail};
use cob_base::NoMemory;
use std::alloc::Global;

/// A sink in memory, for tests. It has room for so many bytes, which is made when it is made. A put takes at most
/// `most` bytes of its piece, and fails where no room is left for a piece that has some. The puts whose numbers are
/// listed fail; puts count from 1, and the count stays at 2^32 - 1.
#[derive(Drop)]
pub struct MemorySink {
    bytes: Vec<u8>,
    room: usize,
    most: usize,
    fails: Vec<u32>,
    puts: u32,
    faults: u64,
    ghost takes_some: { 0 < most },
}

impl MemorySink {
    /// A sink that has taken nothing yet.
    pub fn make(
        alloc: Global,
        room: u32,
        most: u32,
        fails: Vec<u32>,
    ) -> Result<MemorySink, NoMemory>
        requires { 0 < most }
        ensures taken { IfOk result (λ sink. ⟦<MemorySink as Sink>⟧.taken sink ≡ Some []) }
        ensures faults { IfOk result (λ sink. ⟦<MemorySink as Sink>⟧.faults sink ≡ 0) }
        ensures plan { IfOk result (λ sink. (sink.room ≡ room) × (sink.most ≡ most) × (sink.fails ≡ fails)) }
    {
        Ok(MemorySink {
            bytes: Vec::with_capacity(alloc, room as usize)?,
            room: room as usize,
            most: most as usize,
            fails,
            puts: 0,
            faults: 0,
        })
    }

    /// What it has taken.
    pub fn bytes(&self) -> &[u8]
        ensures { ⟦<MemorySink as Sink>⟧.taken self.now ≡ Some result.now }
    {
        self.bytes.as_slice()
    }
}

impl Sink for MemorySink {
    ghost taken = { λ sink. Some sink.bytes.items };

    ghost faults = { λ sink. sink.faults };

    fn put(&mut self, bytes: &[u8]) -> Result<usize, SinkFail> {
        self.puts = self.puts.saturating_add(1);
        let left = self.room.saturating_sub(self.bytes.len());
        let count = bytes.len().min(self.most).min(left);
        if self.fails.contains(&self.puts)
            || (count == 0 && !bytes.is_empty())
            || self.bytes.extend_from_slice(&bytes[..count]).is_err()
        {
            self.faults = self.faults.saturating_add(1);
            return Err(SinkFail::Failed);
        }
        Ok(count)
    }
}
