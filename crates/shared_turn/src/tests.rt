ghost use Rattle.std.specs.Prelude.{◌≡◌, ◌+◌, ◌<◌, ◌≤◌, ◌%◌, ◌^◌, All, length, IfOk};
ghost use Rattle.shared_turn.specs.Passes.{callers_of, IsPassOf, asked_of};

use crate::{Closed, Pass, Serial, Turn, Twice};
use cob_base::NoMemory;
use std::alloc::Global;
use std::sync::Wait;
use std::test::*;
use std::thread;
use std::thread::Threads;

/// A sum, whose step adds what is asked and answers the new sum. It never finds memory for an ask of 0.
#[derive(Drop)]
struct Counter {
    total: u64,
    steps: u64,
}

impl Serial for Counter {
    type Ask = u64;

    type Reply = u64;

    type State = u64;

    ghost state = { λ c. c.total };

    ghost taken = { λ c. c.steps };

    ghost after = { λ n _ k. (n + k) % 2 ^ 64 };

    ghost reply = { λ n _ k. (n + k) % 2 ^ 64 };

    fn step(&mut self, _alloc: Global, _who: u32, ask: &u64) -> Result<Twice<u64>, NoMemory> {
        if *ask == 0 {
            return Err(NoMemory);
        }
        self.total = self.total.wrapping_add(*ask);
        self.steps += 1;
        Ok(Twice {
            told: self.total,
            kept: self.total,
        })
    }
}

const FROM_ZERO: Counter = Counter { total: 0, steps: 0 };

fn two_passes(
    alloc: Global,
) -> Result<
    (
        Turn<Counter>,
        Pass<Counter>,
        Pass<Counter>,
        Vec<Pass<Counter>>,
    ),
    NoMemory,
>
    ensures own { IfOk result (λ r. IsPassOf r.0 r.1 × IsPassOf r.0 r.2) }
    ensures new { IfOk result (λ r. (asked_of r.1 ≡ 0) × (asked_of r.2 ≡ 0)) }
    ensures all { IfOk result (λ r. (callers_of r.0 ≡ 2) × (length r.3.items ≡ 0)) }
{
    let (turn, mut passes) = Turn::begin(alloc, FROM_ZERO, 2)?;
    let (Some(second), Some(first)) = (passes.pop(), passes.pop()) else {
        unreachable!()
    };
    Ok((turn, first, second, passes))
}

/// Pass 1 asks 5 and hears 5, pass 2 asks 7 and hears 12.
#[test]
fn each_hears_the_sum_so_far(rt: HostRuntime) -> Result<(), Fail> {
    let (turn, mut first, mut second, mut passes) = two_passes(rt.alloc())?;
    assert_eq!(rt; turn.ask(&rt, rt.alloc(), &mut first, 5), Ok(5));
    assert_eq!(rt; turn.ask(&rt, rt.alloc(), &mut second, 7), Ok(12));
    passes.push(first)?;
    passes.push(second)?;
    let closed = turn.close(passes);
    assert_eq!(rt; closed.serial.total, 12);
    let mut entries = Vec::new(rt.alloc());
    for entry in closed.journal.as_slice() {
        entries.push((entry.who, entry.ask, entry.reply))?;
    }
    assert_eq!(rt; entries.as_slice(), [(1, 5, 5), (2, 7, 12)].as_slice());
    Ok(())
}

/// A refused call counts, leaves no entry, and gives up the turn.
#[test]
fn a_refused_call_leaves_no_entry(rt: HostRuntime) -> Result<(), Fail> {
    let (turn, mut first, mut second, mut passes) = two_passes(rt.alloc())?;
    assert_eq!(rt; turn.ask(&rt, rt.alloc(), &mut first, 5), Ok(5));
    assert_eq!(rt; turn.ask(&rt, rt.alloc(), &mut second, 0), Err(NoMemory));
    assert_eq!(rt; second.asked(), 1);
    assert_eq!(rt; turn.ask(&rt, rt.alloc(), &mut first, 7), Ok(12));
    assert_eq!(rt; first.asked(), 2);
    passes.push(second)?;
    passes.push(first)?;
    let closed = turn.close(passes);
    assert_eq!(rt; closed.serial.total, 12);
    assert_eq!(rt; closed.serial.steps, 2);
    assert_eq!(rt; closed.journal.len(), 2);
    Ok(())
}

#[test]
fn as_many_callers_as_may_be(rt: HostRuntime) -> Result<(), Fail> {
    let (turn, passes) = Turn::begin(rt.alloc(), FROM_ZERO, 64)?;
    assert_eq!(rt; passes.len(), 64);
    let mut number = 0u32;
    for pass in passes.as_slice() {
        number = number.wrapping_add(1);
        assert_eq!(rt; pass.number(), number);
        assert_eq!(rt; pass.asked(), 0);
    }
    let closed = turn.close(passes);
    assert_eq!(rt; closed.serial.total, 0);
    assert!(rt; closed.journal.is_empty());
    Ok(())
}

fn ask_often<R: Wait>(
    rt: &R,
    alloc: Global,
    turn: &Turn<Counter>,
    mut pass: Pass<Counter>,
    ask: u64,
) -> Result<Pass<Counter>, NoMemory>
    requires own { IsPassOf turn.now pass }
    requires new { asked_of pass ≡ 0 }
    ensures { IfOk result (λ p. IsPassOf turn.now p) }
{
    for _ in 0..1000u64 {
        turn.ask(rt, alloc, &mut pass, ask)?;
    }
    Ok(pass)
}

fn ask_from_two_threads<R: Threads + Wait + Sync>(
    rt: &R,
    alloc: Global,
) -> Result<Closed<Counter>, NoMemory> {
    let (turn, first, second, mut passes) = two_passes(alloc)?;
    let shared = &turn;
    let (first, second) = thread::join(
        rt,
        move || -> Result<Pass<Counter>, NoMemory>
            requires own { IsPassOf shared.now first }
            requires new { asked_of first ≡ 0 }
            ensures { IfOk result (λ p. IsPassOf shared.entry.now p) }
        { ask_often(rt, alloc, shared, first, 1) },
        move || -> Result<Pass<Counter>, NoMemory>
            requires own { IsPassOf shared.now second }
            requires new { asked_of second ≡ 0 }
            ensures { IfOk result (λ p. IsPassOf shared.entry.now p) }
        { ask_often(rt, alloc, shared, second, 10) },
    );
    passes.push(first?)?;
    passes.push(second?)?;
    Ok(turn.close(passes))
}

/// Two threads with 1,000 asks each: the journal has 2,000 entries, and the sum is that of all asks.
#[test]
fn two_threads_ask_a_thousand_times_each(rt: HostRuntime) -> Result<(), Fail> {
    let closed = ask_from_two_threads(&rt, rt.alloc())?;
    assert_eq!(rt; closed.journal.len(), 2000);
    let mut sum = 0u64;
    let mut first = 0u64;
    for entry in closed.journal.as_slice() {
        sum = sum.wrapping_add(entry.ask);
        if entry.who == 1 {
            first = first.wrapping_add(1);
        }
    }
    assert_eq!(rt; closed.serial.total, 11000);
    assert_eq!(rt; sum, 11000);
    assert_eq!(rt; first, 1000);
    Ok(())
}
