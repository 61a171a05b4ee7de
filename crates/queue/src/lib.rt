// The queue of closed batches: their numbers, the oldest first.
#![tactic(auto)]

ghost use Rattle.std.specs.Prelude.{◌≡◌, ℕ, ◌≤◌, List, [], length, Some, is_ok, OnErr, codes, ◌==◌};
ghost use Rattle.queue.specs.Limit.{queue_capacity};
ghost use Rattle.queue.specs.Numbers.{has_place, after_push, oldest_of, after_shift, is_in};

use arrayvec::ArrayVec;
use std::error::Error;
use std::fmt;
use std::marker::Model;

// As many numbers fit.
pub const CAPACITY: usize = 64;

// No place is left.
#[derive(Clone, Copy, Debug, PartialEq, Eq, Hash)]
pub struct Full;

impl fmt::Display for Full {
    ghost output = { λ _. Some (codes "the queue is full") };

    fn fmt<W: fmt::Write>(&self, f: &mut fmt::Formatter<W>) -> fmt::Result {
        f.write_str("the queue is full")
    }
}

impl Error for Full {}

// The numbers, in a clause the list of them.
#[derive(Debug, Drop)]
pub struct Queue {
    numbers: ArrayVec<u32, CAPACITY>,
}

impl Model for Queue {
    ghost Value = { List ℕ };

    ghost view = { λ q. q.numbers.items };

    // A caller sees the list and not this fact, so each call says it too.
    ghost invariant = { λ q. length q.numbers.items ≤ queue_capacity };
}

impl Queue {
    pub fn new() -> Queue
        ensures { result ≡ [] }
    {
        Queue {
            numbers: ArrayVec::new(),
        }
    }

    pub fn len(&self) -> usize
        ensures count { result ≡ length self.now }
        ensures fits { result ≤ queue_capacity }
    {
        self.numbers.len()
    }

    pub fn is_empty(&self) -> bool
        ensures answer { result ≡ (length self.now == 0) }
        ensures fits { length self.now ≤ queue_capacity }
    {
        self.numbers.is_empty()
    }

    // Puts a number at the end, where a place is left.
    pub fn push(&mut self, number: u32) -> Result<(), Full>
        ensures answer { is_ok result ≡ has_place self.old }
        ensures after { self.new ≡ after_push self.old number }
        ensures err { OnErr result (self.new ≡ self.old) }
        ensures fits { length self.new ≤ queue_capacity }
    {
        self.numbers.try_push(number).map_err(|_| Full)
    }

    pub fn oldest(&self) -> Option<u32>
        ensures answer { result ≡ oldest_of self.now }
        ensures fits { length self.now ≤ queue_capacity }
    {
        self.numbers.first().copied()
    }

    // The oldest leaves, and the others move up.
    pub fn shift(&mut self)
        ensures after { self.new ≡ after_shift self.old }
        ensures fits { length self.new ≤ queue_capacity }
    {
        self.numbers.pop_at(0);
    }

    // Whether the number is among them.
    pub fn has(&self, number: u32) -> bool
        ensures answer { result ≡ is_in number self.now }
        ensures fits { length self.now ≤ queue_capacity }
    {
        self.numbers.contains(&number)
    }
}

// By hand, so that it says what it makes.
impl Default for Queue {
    ghost is_default = { λ q. q ≡ [] };

    fn default() -> Queue {
        Queue::new()
    }
}
