ghost use Rattle.std.specs.Prelude.{◌≡◌, ℕ, ◌+◌, ◌<◌, ◌^◌, IfOk, IfErr};

use cob_base::NoMemory;
use std::alloc::Global;

/// Two equal replies: one is told to the caller, the other is kept in the journal.
#[derive(Drop)]
pub struct Twice<R> {
    pub told: R,
    pub kept: R,
    ghost same: { told ≡ kept },
}

/// An object that makes its steps one after another, as files that are read and written, or a counter.
pub trait Serial: Drop {
    /// What a caller asks of it.
    type Ask: Drop;

    /// What it answers. A refusal is a reply too.
    type Reply: Drop;

    /// The object as clauses see it. No value of this type is made.
    type State;

    // The state that the object is in.
    ghost state: { Self → Self.State };

    // How many steps it has taken.
    ghost taken: { Self → ℕ };

    // The state after a caller's ask.
    ghost after: { Self.State → ℕ → Self.Ask → Self.State };

    // The reply to a caller's ask.
    ghost reply: { Self.State → ℕ → Self.Ask → Self.Reply };

    /// One step: the caller `who` asks. At `NoMemory` all is as before.
    fn step(
        &mut self,
        alloc: Global,
        who: u32,
        ask: &Self::Ask,
    ) -> Result<Twice<Self::Reply>, NoMemory>
        requires early { taken self.old < 2 ^ 40 }
        ensures told { IfOk result (λ r. r.told ≡ reply (state self.old) who ask.now) }
        ensures state { IfOk result (λ _. state self.new ≡ after (state self.old) who ask.now) }
        ensures taken { IfOk result (λ _. taken self.new ≡ taken self.old + 1) }
        ensures refused { IfErr result (λ _. (state self.new ≡ state self.old) × (taken self.new ≡ taken self.old)) };
}
