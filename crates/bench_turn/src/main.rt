//! Prints the time of one ask of a turn: by one caller alone, and by 2, 4 and 8 threads at once.
#![tactic(auto)]

ghost use Rattle.std.specs.Prelude.{◌≡◌, ◌+◌, ◌<◌, ◌≤◌, ◌%◌, ◌^◌, IfOk, All};
ghost use Rattle.shared_turn.specs.Passes.{IsPassOf, asked_of};

use cob_base::NoMemory;
use shared_turn::{Pass, Serial, Turn, Twice};
use std::alloc::{AllocError, Global};
use std::sync::Wait;
use std::thread::Threads;
use std::time::{Clock, Instant};
use std::{env, io, thread};

/// A sum, whose step adds what is asked and answers the new sum.
#[derive(Drop)]
struct Counter {
    total: u64,
    steps: u64,
}

impl Serial for Counter {
    type Ask = u64;

    type Reply = u64;

    type State = u64;

    ghost state = { λ c. c.total };

    ghost taken = { λ c. c.steps };

    ghost after = { λ n _ k. (n + k) % 2 ^ 64 };

    ghost reply = { λ n _ k. (n + k) % 2 ^ 64 };

    fn step(&mut self, _alloc: Global, _who: u32, ask: &u64) -> Result<Twice<u64>, NoMemory> {
        self.total = self.total.wrapping_add(*ask);
        self.steps += 1;
        Ok(Twice {
            told: self.total,
            kept: self.total,
        })
    }
}

/// Asks `times` times with one pass.
fn ask_often<R: Wait>(
    rt: &R,
    alloc: Global,
    turn: &Turn<Counter>,
    mut pass: Pass<Counter>,
    times: u32,
) -> Result<(), NoMemory>
    requires own { IsPassOf turn.now pass }
    requires new { asked_of pass ≡ 0 }
{
    for _ in 0..times {
        turn.ask(rt, alloc, &mut pass, 1)?;
    }
    Ok(())
}

/// Each of so many threads asks `times` times.
fn ask_from_threads<R: Threads + Wait + Sync>(
    rt: &R,
    alloc: Global,
    threads: u32,
    times: u32,
) -> Result<(), NoMemory>
    requires { (1 ≤ threads) × (threads ≤ 64) }
{
    let counter = Counter { total: 0, steps: 0 };
    let (turn, passes) = Turn::begin(alloc, counter, threads)?;
    let shared = &turn;
    let results = thread::map_vec(
        rt,
        passes,
        &|pass: Pass<Counter>| -> Result<(), NoMemory>
            requires own { IsPassOf shared.now pass }
            requires new { asked_of pass ≡ 0 }
        { ask_often(rt, alloc, shared, pass, times) },
    )?;
    for result in results {
        result?;
    }
    Ok(())
}

/// The time of one ask in nanoseconds, where so many threads make `asks` of them together.
fn time_of_ask<R: Threads + Wait + Sync + Clock>(
    rt: &R,
    alloc: Global,
    threads: u32,
    asks: u32,
) -> io::Result<u128>
    requires { (1 ≤ threads) × (threads ≤ 64) }
{
    let start = Instant::now(rt)?;
    if ask_from_threads(rt, alloc, threads, asks / threads).is_err() {
        return Err(io::Error::from(AllocError));
    }
    let took = start.elapsed(rt)?.as_nanos();
    Ok(if asks == 0 { 0 } else { took / asks as u128 })
}

fn main(rt: HostRuntime) -> io::Result<()> {
    let Some(word) = env::args(&rt)?.nth(1) else {
        return println!(rt; "bench_turn ASKS");
    };
    let Ok(asks) = word.parse::<u32>() else {
        return println!(rt; "bench_turn ASKS");
    };
    let alone = time_of_ask(&rt, rt.alloc(), 1, asks)?;
    println!(rt; "1 caller: {alone} ns an ask")?;
    for threads in [2, 4, 8] {
        let together = time_of_ask(&rt, rt.alloc(), threads, asks)?;
        println!(rt;
            "{threads} threads: {together} ns an ask, {} times one caller's",
            together / alone.max(1)
        )?;
    }
    Ok(())
}
