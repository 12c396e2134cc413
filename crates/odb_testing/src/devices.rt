//! Readers and writers that are slow or fail, and count their calls.

use std::alloc::Global;
use std::io;
use std::io::{ErrorKind, Read, Write};

/// How a device works: how many bytes it gives or takes at each call, in turns of three, and how
/// many calls go well before one fails.
#[derive(Clone, Copy)]
pub struct Pace {
    pub turns: [usize; 3],
    pub calls: usize,
}

/// Turns of a byte, of three, of uneven numbers, and of more than a text has.
pub const TURNS: [[usize; 3]; 4] = [[1, 1, 1], [3, 3, 3], [1, 7, 2], [1_000, 1_000, 1_000]];

/// More calls than any device is called.
pub const ENOUGH: usize = 1_000;

impl Pace {
    /// The pace of a device that does not fail.
    pub fn steady(turns: [usize; 3]) -> Pace {
        Pace {
            turns,
            calls: ENOUGH,
        }
    }

    /// The pace of a device that moves a byte a call, of which so many go well.
    pub fn bytewise(calls: usize) -> Pace {
        Pace {
            turns: [1, 1, 1],
            calls,
        }
    }
}

/// Gives its bytes at a pace.
#[derive(Drop)]
pub struct Slow<'a> {
    left: &'a [u8],
    pace: Pace,
    pub calls: usize,
}

impl<'a> Slow<'a> {
    pub fn new(left: &'a [u8], pace: Pace) -> Self {
        Slow {
            left,
            pace,
            calls: 0,
        }
    }
}

impl Read for Slow<'_> {
    fn read(&mut self, buffer: &mut [u8]) -> io::Result<usize> {
        let call = self.calls;
        self.calls = call.saturating_add(1);
        if call >= self.pace.calls {
            return Err(io::Error::from(ErrorKind::Other));
        }
        let turn = self.pace.turns[call % 3];
        let count = turn.min(buffer.len()).min(self.left.len());
        let (given, left) = self.left.split_at(count);
        buffer[..count].copy_from_slice(given);
        self.left = left;
        Ok(count)
    }
}

/// Takes bytes at a pace.
#[derive(Drop)]
pub struct Narrow {
    pub bytes: Vec<u8>,
    pace: Pace,
    pub calls: usize,
}

impl Narrow {
    pub fn new(alloc: Global, pace: Pace) -> Self {
        Narrow {
            bytes: Vec::new(alloc),
            pace,
            calls: 0,
        }
    }
}

impl Write for Narrow {
    fn write(&mut self, bytes: &[u8]) -> io::Result<usize> {
        let call = self.calls;
        self.calls = call.saturating_add(1);
        if call >= self.pace.calls {
            return Err(io::Error::from(ErrorKind::Other));
        }
        let turn = self.pace.turns[call % 3];
        let count = turn.min(bytes.len());
        self.bytes.extend_from_slice(&bytes[..count])?;
        Ok(count)
    }

    fn flush(&mut self) -> io::Result<()> {
        Ok(())
    }
}
