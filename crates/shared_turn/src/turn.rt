ghost use Rattle.std.specs.Prelude.{◌≡◌, ℕ, ◌+◌, ◌<◌, ◌≤◌, ◌^◌, [], ◌∷◌, None, Some, IfOk, IfErr, All, Contains, length, map, slice_index_or};
ghost use Rattle.shared_turn.specs.Serial.{object};
ghost use Rattle.shared_turn.specs.Journal.{Legal, state_after};
ghost use Rattle.shared_turn.specs.View.{first_caller, newcomer, gave, counted, refused, answered, resting, waiting, winner, gathered, both, caller_of};
ghost use Rattle.shared_turn.specs.Steps.{journal_of, journal_in, IsFresh, IsIdle, IsGathered, IsSame, HasGrown};

use crate::happened::{Happened, HappenedOf};
use crate::pass::{Pass, PassOf};
use crate::rule::{
    Another, BOOK, BookOf, Draw, Gather, InTurn, Record, Return, SERVING, SeatOf, Start, TICKET,
    ViewOf, Watch,
};
use crate::serial::{Serial, Twice};
use crate::view::Book;
use atomic_table::Table;
use cob_base::{Items, NoMemory};
use std::alloc::{Allocator, Global};
use std::snapshot::Snapshot;
use std::sync::Wait;

/// One object and its journal, which callers have in turn.
///
/// Each caller asks with a pass of its own. Threads share the turn by reference.
#[derive(Drop)]
pub struct Turn<S: Serial> {
    table: Table<Option<BookOf<S>>, ViewOf<S>, Start<S>, InTurn<S>, Global>,
    ghost shape: { (table.shared.table_id.words ≡ 2) × (table.shared.table_id.slots ≡ 1) },
    ghost callers: { (1 ≤ table.shared.key.callers) × (table.shared.key.callers ≤ 64) },
}

/// The object at the end, and its journal: the asks that were answered, in the order of their turns.
#[derive(Drop)]
pub struct Closed<S: Serial> {
    pub serial: S,
    pub journal: Items<Happened<S>>,
}

// A sleep compares the low 32 bits of a word. Each turn that is given up changes them.
const LOW: u64 = 0xffff_ffff;

impl<S: Serial> Turn<S> {
    ghost use Rattle.shared_turn.specs.Passes.{start_of, callers_of, IsPassOf, number_of, asked_of, IsNew, IsAnswered, IsRefused, AgreesWith};
    ghost use Rattle.shared_turn.specs.Closing.{Finished};

    /// Opens the object for 1 to 64 callers. The pass at place i speaks for caller i + 1.
    pub fn begin(
        alloc: Global,
        serial: S,
        callers: u32,
    ) -> Result<(Turn<S>, Vec<Pass<S>>), NoMemory>
        requires early { S.taken serial < 2 ^ 39 }
        requires callers { (1 ≤ callers) × (callers ≤ 64) }
        ensures start { IfOk result (λ r. start_of r.0 ≡ serial) }
        ensures callers { IfOk result (λ r. (callers_of r.0 ≡ callers) × (length r.1.items ≡ callers)) }
        ensures own { IfOk result (λ r. All (IsPassOf r.0) r.1.items) }
        ensures new { IfOk result (λ r. (i : ℕ) (d : _) → i < callers → IsNew (i + 1) (slice_index_or r.1.items i d)) }
    {
        let (turn, mut first) = Turn::open(alloc, serial, callers)?;
        let mut passes = Vec::with_capacity(alloc, callers as usize)?;
        let mut number = 1;
        while number < callers {
            number += 1;
            let next = turn.another(&mut first, number);
            passes.push(next)?;
        }
        passes.insert(0, first)?;
        Ok((turn, passes))
    }

    /// Waits for the turn, then makes one step of the object for the pass's caller, and enters it in the journal.
    ///
    /// At `NoMemory` nothing was asked: the object and the journal are as this call found them.
    pub fn ask<R: Wait>(
        &self,
        rt: &R,
        alloc: Global,
        pass: &mut Pass<S>,
        ask: S::Ask,
    ) -> Result<S::Reply, NoMemory>
        requires own { IsPassOf self.now pass.old }
        requires few { asked_of pass.old < 2 ^ 32 }
        ensures own { IsPassOf self.now pass.new }
        ensures number { number_of pass.new ≡ number_of pass.old }
        ensures counts { asked_of pass.new ≡ asked_of pass.old + 1 }
        ensures answered { IfOk result (λ reply. IsAnswered pass.old pass.new ask reply) }
        ensures refused { IfErr result (λ _. IsRefused pass.old pass.new) }
    {
        let ticket = self.draw(&mut pass.seat);
        self.wait_for(rt, &mut pass.seat, ticket);
        pass.asked += 1;
        let mut book = self.take_book(&mut pass.seat);
        let outcome = add::<S>(&mut book, alloc, pass.number, ask);
        self.put_book(&mut pass.seat, book);
        match outcome {
            Ok(reply) => {
                self.record(&mut pass.seat);
                Ok(reply)
            }
            Err(NoMemory) => {
                self.hand_back(&mut pass.seat);
                Err(NoMemory)
            }
        }
    }

    /// Ends the turn, with all of its passes, and gives back the object and its journal.
    pub fn close(self, passes: Vec<Pass<S>>) -> Closed<S>
        requires own { All (IsPassOf self) passes.items }
        requires all { length passes.items ≡ callers_of self }
        ensures legal { Legal (object S.state S.taken S.after S.reply) (S.state (start_of self)) result.journal }
        ensures state { S.state result.serial ≡ state_after (object S.state S.taken S.after S.reply) (S.state (start_of self)) result.journal }
        ensures taken { S.taken result.serial ≡ S.taken (start_of self) + length result.journal }
        ensures lists { All (AgreesWith result.journal) passes.items }
        ensures whose { All (λ e. Contains (map number_of passes.items) e.who) result.journal }
    {
        let seat = self.gather(passes);
        self.finish(seat)
    }

    fn open(alloc: Global, serial: S, callers: u32) -> Result<(Turn<S>, Pass<S>), NoMemory>
        requires early { S.taken serial < 2 ^ 39 }
        requires callers { (1 ≤ callers) × (callers ≤ 64) }
        ensures turn { IfOk result (λ r. (start_of r.0 ≡ serial) × (callers_of r.0 ≡ callers)) }
        ensures pass { IfOk result (λ r. IsPassOf r.0 r.1 × (caller_of r.1.seat.me.0 ≡ first_caller)) }
    {
        let start = Start {
            serial: Snapshot::of(&serial),
            callers,
        };
        let book = Book {
            serial,
            journal: Vec::new(alloc),
        };
        let mut slots = Vec::with_capacity(alloc, 1)?;
        slots.push(Some(book))?;
        let Ok((table, seat)) = Table::new(alloc, &[0, 0], slots, &start) else {
            return Err(NoMemory);
        };
        let pass = PassOf {
            number: 1,
            asked: 0,
            seat,
        };
        Ok((Turn { table }, pass))
    }

    // Splits a seat off that of caller 1.
    fn another(&self, first: &mut Pass<S>, number: u32) -> Pass<S>
        requires own { IsPassOf self.now first.old }
        requires first { (number_of first.old ≡ 1) × ((caller_of first.old.seat.me.0).given + 1 ≡ number) × (number ≤ callers_of self.now) }
        ensures own { (first.new.seat.table_id ≡ first.old.seat.table_id) × (result.seat.table_id ≡ first.old.seat.table_id) }
        ensures first { (number_of first.new ≡ 1) × (caller_of first.new.seat.me.0 ≡ gave (caller_of first.old.seat.me.0)) }
        ensures next { (number_of result ≡ number) × (caller_of result.seat.me.0 ≡ newcomer number) }
    {
        let seat = self.table.shared.split_seat::<Another>(&mut first.seat);
        PassOf {
            number,
            asked: 0,
            seat,
        }
    }

    fn draw(&self, seat: &mut SeatOf<S>) -> u64
        requires own { seat.old.table_id ≡ self.now.table.shared.table_id }
        requires idle { IsIdle seat.old.me × ((caller_of seat.old.me.0).calls < 2 ^ 32) }
        ensures own { (seat.new.table_id ≡ seat.old.table_id) × (seat.new.id ≡ seat.old.id) }
        ensures drew { seat.new.me ≡ (waiting (counted (caller_of seat.old.me.0)) result, []) }
    {
        self.table.shared.fetch_add::<Draw>(seat, TICKET, 1)
    }

    // It sleeps while another ticket is served.
    fn wait_for<R: Wait>(&self, rt: &R, seat: &mut SeatOf<S>, ticket: u64)
        requires own { seat.old.table_id ≡ self.now.table.shared.table_id }
        requires drew { seat.old.me ≡ (waiting (caller_of seat.old.me.0) ticket, []) }
        ensures own { (seat.new.table_id ≡ seat.old.table_id) × (seat.new.id ≡ seat.old.id) }
        ensures won { (b : _) × (seat.new.me ≡ (winner (caller_of seat.old.me.0) ticket b, (0, Some b) ∷ [])) × IsFresh S.taken (caller_of seat.old.me.0) b }
    {
        for _ in rt.forever() {
            let seen = self.table.shared.load::<Watch<S>>(seat, SERVING);
            if seen == ticket {
                return;
            }
            self.table.shared.park(rt, SERVING, (seen & LOW) as u32);
        }
        unreachable!()
    }

    fn take_book(&self, seat: &mut SeatOf<S>) -> BookOf<S>
        requires own { seat.old.table_id ≡ self.now.table.shared.table_id }
        requires has { (b : _) × (seat.old.me.1 ≡ (0, Some b) ∷ []) }
        ensures own { (seat.new.table_id ≡ seat.old.table_id) × (seat.new.id ≡ seat.old.id) }
        ensures taken { (seat.old.me.1 ≡ (0, Some result) ∷ []) × (seat.new.me ≡ (seat.old.me.0, (0, None) ∷ [])) }
    {
        match self.table.shared.exchange(seat, BOOK, None) {
            Some(book) => book,
            None => unreachable!(),
        }
    }

    fn put_book(&self, seat: &mut SeatOf<S>, book: BookOf<S>)
        requires own { seat.old.table_id ≡ self.now.table.shared.table_id }
        requires has { seat.old.me.1 ≡ (0, None) ∷ [] }
        ensures own { (seat.new.table_id ≡ seat.old.table_id) × (seat.new.id ≡ seat.old.id) }
        ensures put { seat.new.me ≡ (seat.old.me.0, (0, Some book) ∷ []) }
    {
        match self.table.shared.exchange(seat, BOOK, Some(book)) {
            None => {}
            Some(_) => unreachable!(),
        }
    }

    // Gives up the turn, with the book as it was taken.
    fn hand_back(&self, seat: &mut SeatOf<S>)
        requires own { seat.old.table_id ≡ self.now.table.shared.table_id }
        requires has { (t : _) × (b : _) × (c : _) × (seat.old.me ≡ (winner (caller_of seat.old.me.0) t b, (0, Some c) ∷ [])) × IsSame (object S.state S.taken S.after S.reply) b c }
        ensures own { (seat.new.table_id ≡ seat.old.table_id) × (seat.new.id ≡ seat.old.id) }
        ensures idle { seat.new.me ≡ (resting (refused (journal_of seat.old.me.0.took) (journal_in seat.old.me.1) (caller_of seat.old.me.0)), []) }
    {
        self.table.shared.fetch_add::<Return>(seat, SERVING, 1);
        self.table.shared.wake_all(SERVING);
    }

    // Gives up the turn, with one entry more in the journal.
    fn record(&self, seat: &mut SeatOf<S>)
        requires own { seat.old.table_id ≡ self.now.table.shared.table_id }
        requires has { (t : _) × (b : _) × (c : _) × (a : _) × (r : _) × (seat.old.me ≡ (winner (caller_of seat.old.me.0) t b, (0, Some c) ∷ [])) × HasGrown (object S.state S.taken S.after S.reply) b c (caller_of seat.old.me.0).number a r }
        ensures own { (seat.new.table_id ≡ seat.old.table_id) × (seat.new.id ≡ seat.old.id) }
        ensures idle { seat.new.me ≡ (resting (answered (journal_of seat.old.me.0.took) (journal_in seat.old.me.1) (caller_of seat.old.me.0)), []) }
    {
        self.table.shared.fetch_add::<Record>(seat, SERVING, 1);
        self.table.shared.wake_all(SERVING);
    }

    // Joins the seats of all passes.
    fn gather(&self, mut passes: Vec<Pass<S>>) -> SeatOf<S>
        requires own { All (IsPassOf self.now) passes.items }
        requires some { 1 ≤ length passes.items }
        ensures own { result.table_id ≡ self.now.table.shared.table_id }
        ensures all { result.me ≡ (gathered (map (λ p. caller_of p.seat.me.0) passes.items), []) }
    {
        let Some(last) = passes.pop() else {
            unreachable!()
        };
        let PassOf {
            number: _,
            asked: _,
            mut seat,
        } = last;
        while let Some(next) = passes.pop() {
            let PassOf {
                number: _,
                asked: _,
                seat: other,
            } = next;
            self.take_in(&mut seat, other);
        }
        seat
    }

    fn take_in(&self, seat: &mut SeatOf<S>, other: SeatOf<S>)
        requires own { (seat.old.table_id ≡ self.now.table.shared.table_id) × (other.table_id ≡ self.now.table.shared.table_id) }
        requires idle { IsGathered seat.old.me × IsGathered other.me }
        ensures own { (seat.new.table_id ≡ seat.old.table_id) × (seat.new.id ≡ seat.old.id) }
        ensures took { seat.new.me ≡ (both seat.old.me.0 other.me.0, []) }
    {
        self.table.shared.join_seat::<Gather>(seat, other);
    }

    // Takes the book out, with a seat that speaks for all callers.
    fn finish(self, seat: SeatOf<S>) -> Closed<S>
        requires own { seat.table_id ≡ self.table.shared.table_id }
        requires all { (seat.me ≡ (gathered seat.me.0.callers, [])) × (length seat.me.0.callers ≡ callers_of self) }
        ensures { Finished (object S.state S.taken S.after S.reply) (start_of self) seat.me.0.callers result.serial result.journal }
    {
        let Turn { table } = self;
        let mut closed = table.close_with(seat);
        let slot = closed.take(BOOK);
        closed.free();
        match slot {
            Some(Book { serial, journal }) => Closed {
                serial,
                journal: Items::from_vec(journal),
            },
            None => unreachable!(),
        }
    }
}

// It makes room in the journal first, so that a refusal leaves the book as it was.
fn add<S: Serial>(
    book: &mut BookOf<S>,
    alloc: Global,
    who: u32,
    ask: S::Ask,
) -> Result<S::Reply, NoMemory>
    requires early { S.taken book.old.serial < 2 ^ 40 }
    ensures ok { IfOk result (λ reply. HasGrown (object S.state S.taken S.after S.reply) book.old book.new who ask reply) }
    ensures err { IfErr result (λ _. IsSame (object S.state S.taken S.after S.reply) book.old book.new) }
{
    book.journal.reserve(1)?;
    let Twice { told, kept } = book.serial.step(alloc, who, &ask)?;
    let entry = HappenedOf {
        who,
        ask,
        reply: kept,
    };
    match book.journal.push(entry) {
        Ok(()) => Ok(told),
        Err(_) => unreachable!(),
    }
}
