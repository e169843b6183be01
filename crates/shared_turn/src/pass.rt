ghost use Rattle.std.specs.Prelude.{◌≡◌};
ghost use Rattle.shared_turn.specs.View.{caller_of};
ghost use Rattle.shared_turn.specs.Steps.{IsIdle};

use crate::serial::Serial;
use crate::view::{Book, View};
use atomic_table::Seat;

/// The right to ask in one caller's name.
///
/// It has no bound on its types, so that closures that run in threads may take it; write `Pass<S>`.
#[derive(Drop)]
pub struct PassOf<O, A, R> {
    pub(crate) number: u32,
    pub(crate) asked: u64,
    pub(crate) seat: Seat<Option<Book<O, A, R>>, View<O, A, R>>,
    ghost idle: { IsIdle seat.me },
    ghost number_is: { number ≡ (caller_of seat.me.0).number },
    ghost asked_is: { asked ≡ (caller_of seat.me.0).calls },
}

/// A pass of a `Turn<S>`.
pub type Pass<S> = PassOf<S, <S as Serial>::Ask, <S as Serial>::Reply>;

impl<O, A, R> PassOf<O, A, R> {
    ghost use Rattle.shared_turn.specs.Passes.{number_of, asked_of};

    /// The number of the pass's caller, from 1.
    pub fn number(&self) -> u32
        ensures { result ≡ number_of self.now }
    {
        self.number
    }

    /// How many calls of `ask` were made with this pass, refused ones too.
    pub fn asked(&self) -> u64
        ensures { result ≡ asked_of self.now }
    {
        self.asked
    }
}
