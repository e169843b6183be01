// The rule of the table, and what each step on it tells.
ghost use Rattle.shared_turn.specs.Serial.{object};
ghost use Rattle.shared_turn.specs.View.{first_caller, resting, gives_number, next_caller, both, nobody};
ghost use Rattle.shared_turn.specs.Rule.{IsInTurn};
ghost use Rattle.shared_turn.specs.Steps.{drawn, watched, returned, recorded};

use crate::serial::Serial;
use crate::view::{Book, View};
use atomic_table::{Join, Play, Seat, Split, TableRule};
use std::marker::PhantomData;
use std::snapshot::Snapshot;

/// The book of a `Turn<S>`, what a seat knows of it, and a seat.
pub type BookOf<S> = Book<S, <S as Serial>::Ask, <S as Serial>::Reply>;

pub type ViewOf<S> = View<S, <S as Serial>::Ask, <S as Serial>::Reply>;

pub type SeatOf<S> = Seat<Option<BookOf<S>>, ViewOf<S>>;

/// The word with the next ticket, the word with the ticket that is served, and the slot with the book.
pub const TICKET: usize = 0;

pub const SERVING: usize = 1;

pub const BOOK: usize = 0;

/// What the table is told when it is made: the object at the start, and the number of callers.
#[derive(Drop)]
pub struct Start<S> {
    pub serial: Snapshot<S>,
    pub callers: u32,
}

pub struct InTurn<S> {
    of: PhantomData<S>,
}

impl<S: Serial> TableRule<Option<BookOf<S>>, ViewOf<S>, Start<S>> for InTurn<S> {
    ghost holds = { λ k. IsInTurn (object S.state S.taken S.after S.reply) k.serial.value k.callers };

    ghost first = { λ _. resting first_caller };
}

/// Draws a ticket.
pub struct Draw;

impl<O, A, R> Play<Option<Book<O, A, R>>, View<O, A, R>> for Draw {
    ghost then = { drawn };
}

/// Looks which ticket is served.
pub struct Watch<S> {
    of: PhantomData<S>,
}

impl<S: Serial> Play<Option<BookOf<S>>, ViewOf<S>> for Watch<S> {
    ghost then = { watched S.taken };
}

/// Gives up the turn: nothing was done with the book.
pub struct Return;

impl<O, A, R> Play<Option<Book<O, A, R>>, View<O, A, R>> for Return {
    ghost then = { returned };
}

/// Gives up the turn: the journal has one entry more.
pub struct Record;

impl<O, A, R> Play<Option<Book<O, A, R>>, View<O, A, R>> for Record {
    ghost then = { recorded };
}

/// One caller more.
pub struct Another;

impl<O, A, R> Split<View<O, A, R>> for Another {
    ghost left = { gives_number };

    ghost right = { next_caller };
}

/// One seat keeps what another held.
pub struct Gather;

impl<O, A, R> Join<View<O, A, R>> for Gather {
    ghost both = { both };

    ghost spent = { nobody };
}
