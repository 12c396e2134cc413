//! A list of numbers to visit, each once.

ghost use Rattle.std.specs.Prelude.{◌≡◌, ◌<◌, length, replicate, slice_index_or, IfOk};
ghost use Rattle.odb_dense.specs.declared.worklist.Mark.TheVariants.{Unvisited};
ghost use Rattle.odb_dense.specs.Marks as marks;

use std::alloc::{AllocError, Global};
use std::marker::Model;

/// Whether a number was never on the list, is on it, or was taken from it.
#[derive(Clone, Copy, Debug, PartialEq, Eq)]
pub enum Mark {
    /// It was never put on the list.
    Unvisited,
    /// It is on the list.
    Queued,
    /// It was taken from the list, and is not put on it again.
    Visited,
}

/// A worklist of numbers below a bound: each is put on it once at most, and taken from it once at
/// most. The order in which they are taken is not specified.
#[derive(Drop)]
pub struct Worklist {
    marks: Vec<Mark>,
    queue: Vec<u32>,
    head: usize,
    tail: usize,
}

impl Model for Worklist {
    ghost use Rattle.std.specs.Prelude.{List};
    ghost use Rattle.odb_dense.specs.declared.worklist.Mark.{Mark};

    ghost Value = { List Mark };

    ghost use Rattle.odb_dense.specs.Queue.{marks_of, IsQueued};

    ghost view = { marks_of };

    ghost invariant = { IsQueued };
}

impl Worklist {
    /// Returns an empty list, on which no number below `bound` was yet.
    ///
    /// # Errors
    ///
    /// If memory for `bound` numbers cannot be allocated.
    pub fn new(alloc: Global, bound: u32) -> Result<Worklist, AllocError>
        ensures { IfOk result (λ w. w ≡ replicate bound Unvisited) }
    {
        Ok(Worklist {
            marks: vec![in alloc; Mark::Unvisited; bound as usize]?,
            queue: vec![in alloc; 0_u32; bound as usize]?,
            head: 0,
            tail: 0,
        })
    }

    /// Returns whether a number below the bound was taken from the list.
    pub fn is_visited(&self, u: u32) -> bool
        requires { u < length self.now }
        ensures { result ≡ marks.is_visited (slice_index_or self.now u Unvisited) }
    {
        matches!(self.marks[u as usize], Mark::Visited)
    }

    /// Puts a number below the bound on the list, if it was never on it.
    pub fn put(&mut self, u: u32)
        requires { u < length self.old }
        ensures { self.new ≡ marks.marked self.old u }
    {
        if let Mark::Unvisited = self.marks[u as usize] {
            self.marks[u as usize] = Mark::Queued;
            self.queue[self.tail] = u;
            self.tail += 1;
        }
    }

    /// Takes a number from the list, or returns `None` if it is empty.
    pub fn take(&mut self) -> Option<u32>
        ensures { marks.Takes self.old result self.new }
    {
        if self.head == self.tail {
            return None;
        }
        let u = self.queue[self.head];
        self.head += 1;
        self.marks[u as usize] = Mark::Visited;
        Some(u)
    }
}
