ghost use Rattle.std.specs.Prelude.{◌≡◌, ℕ, ◌<◌, ◌≤◌, List, IfOk, IfSome, IsSomeAnd, IsErrOf, IfErr, OnOk, OnErr, Some, length};
ghost use Rattle.std.specs.Option.{option_map};
ghost use Rattle.std.specs.declared.option.Option.{Option};
ghost use Rattle.outside_world.specs.declared.shelf.Held.{Held};
ghost use Rattle.outside_world.specs.declared.shelf.ShelfFail.TheVariants.{Failed, TooLong, NoMemory};
ghost use Rattle.outside_world.specs.Causes.{HasCause, Rose};
ghost use Rattle.outside_world.specs.Stored.{lookup, Stores, StoresPart};

use cob_base::ByteText;
use std::alloc::{AllocError, Global};

/// A name and what is held under it. `None` is a name that may be written and is not held.
#[derive(Debug, Drop)]
pub struct Held {
    pub name: ByteText,
    pub bytes: Option<ByteText>,
}

/// Why a call of a shelf gives nothing.
#[derive(Clone, Copy, Debug, PartialEq, Eq)]
pub enum ShelfFail {
    /// The text is longer than was asked for.
    TooLong,
    /// The outside failed; the shelf has counted it.
    Failed,
    /// Want of memory.
    NoMemory,
}

impl From<AllocError> for ShelfFail {
    ghost from_gives = { λ _ e. e ≡ NoMemory };

    fn from(_: AllocError) -> Self {
        ShelfFail::NoMemory
    }
}

/// Named texts. A shelf may tell what it holds; each keeps two counts of faults, which never fall and stand still at
/// 2^64 - 1.
pub trait Shelf {
    /// What is held, where the shelf tells it.
    ghost held: { Self → Option (List Held) };

    /// How often a read failed. It never falls.
    ghost read_faults: { Self → ℕ };

    /// How often a write failed. It never falls.
    ghost write_faults: { Self → ℕ };

    /// The bytes under a name, of which there are at most `most`. `None` says that the name is not held, `TooLong`
    /// that its bytes are more than `most`; `Failed` comes only where the count of read faults rose.
    fn read(&mut self, alloc: Global, name: &str, most: usize) -> Result<Option<Vec<u8>>, ShelfFail>
        ensures held { held self.new ≡ held self.old }
        ensures write_faults { write_faults self.new ≡ write_faults self.old }
        ensures found { IfOk result (λ r. IfSome (held self.old) (λ files. option_map (λ v. v.items) r ≡ lookup name.now files)) }
        ensures within { IfOk result (λ r. IfSome r (λ v. length v.items ≤ most)) }
        ensures too_long { IsErrOf result TooLong → IfSome (held self.old) (λ files. IsSomeAnd (lookup name.now files) (λ bytes. most < length bytes)) }
        ensures later { read_faults self.old ≤ read_faults self.new }
        ensures failed { IsErrOf result Failed → Rose (read_faults self.old) (read_faults self.new) };

    /// Puts the bytes under the name; every other name holds what it held. `Failed` comes only where the count of write
    /// faults rose: then the name holds what it held or a prefix of the bytes. Nothing else is answered.
    fn write(&mut self, name: &str, bytes: &[u8]) -> Result<(), ShelfFail>
        ensures read_faults { read_faults self.new ≡ read_faults self.old }
        ensures stored { OnOk result (Stores name.now (Some bytes.now) (held self.old) (held self.new)) }
        ensures part { OnErr result (StoresPart name.now bytes.now (held self.old) (held self.new)) }
        ensures fails { IfErr result (λ fail. fail ≡ Failed) }
        ensures cause { HasCause (write_faults self.old) (write_faults self.new) result };
}
