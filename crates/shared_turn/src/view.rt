// What lies in the slot, and what a seat knows.
use crate::happened::HappenedOf;
use std::alloc::Global;
use std::collections::LinkedList;

/// The object and its journal.
#[derive(Drop)]
pub struct Book<O, A, R> {
    pub serial: O,
    pub journal: Vec<HappenedOf<A, R>, Global>,
}

/// What one caller knows. No value of it is made.
pub struct Caller<A, R> {
    pub number: u32,
    /// The calls that it has begun.
    pub calls: u64,
    /// How many numbers were given. Only caller 1 keeps this count.
    pub given: u32,
    /// The journal as of its latest answered call.
    pub seen: LinkedList<HappenedOf<A, R>>,
    /// Its own entries.
    pub mine: LinkedList<HappenedOf<A, R>>,
    /// The journal as its latest call found it.
    pub found: LinkedList<HappenedOf<A, R>>,
    /// The journal as its latest call left it.
    pub left: LinkedList<HappenedOf<A, R>>,
}

/// What a seat knows. No value of it is made.
pub struct View<O, A, R> {
    pub ticket: Option<u64>,
    /// The book that was taken with the turn.
    pub took: Option<Book<O, A, R>>,
    /// The caller that the seat speaks for, and behind it those that it took in when the turn was closed.
    pub callers: LinkedList<Caller<A, R>>,
}
