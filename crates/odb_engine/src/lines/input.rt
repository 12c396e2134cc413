//! Reads an input of lines ahead, and remembers whether a read failed.

ghost use Rattle.std.specs.Prelude.{◌≡◌, ◌+◌, ◌^◌, ◌<◌, ◌≤◌, ◌↔◌, [], false, length, take, IfOk, IsErr, IsTrue, OnOk};
ghost use Rattle.std.specs.Io.KnownBytes.{Consumes, IsAtEnd, Keeps};
ghost use Rattle.odb_engine.specs.lines.Sources.{left};
ghost use Rattle.odb_engine.specs.lines.Steps.{ahead};

use odb_io::DeviceFault;
use std::alloc::{AllocError, Global};
use std::io::{BufRead, BufReader, Read};
use std::marker::Model;

const BUFFER_BYTES: usize = 65_536;

const _: () = prove!(BUFFER_BYTES == 65_536);

/// A reader of lines: it reads 65,536 bytes ahead at most, and remembers whether a read failed.
///
/// An interrupted read is a failed one, and so is a read after 18,446,744,073,709,551,615 lines and
/// pieces of lines.
#[derive(Drop)]
pub struct LineInput<R> {
    reader: BufReader<R>,
    failed: bool,
    fills: u64,
}

impl<R> Model for LineInput<R> {
    ghost use Rattle.odb_engine.specs.lines.Sources.{LineReading};

    ghost Value = { LineReading R };

    ghost view = { λ input. record { reader = input.reader; failed = input.failed; fills = input.fills } };
}

impl<R: Read> LineInput<R> {
    /// Makes an input over a reader.
    ///
    /// # Errors
    ///
    /// `AllocError` if the buffer cannot be allocated. The reader is dropped then.
    pub fn new(alloc: Global, reader: R) -> Result<Self, AllocError>
    where
        R: Drop,
        ensures works { IfOk result (λ input. input.failed ≡ false) }
        ensures unread { IfOk result (λ input. left R.remaining input ≡ R.remaining reader) }
        ensures unfilled { IfOk result (λ input. input.fills ≡ 0) }
    {
        match BufReader::with_capacity(alloc, BUFFER_BYTES, reader) {
            Ok(reader) => Ok(LineInput {
                reader,
                failed: false,
                fills: 0,
            }),
            Err(_) => Err(AllocError),
        }
    }

    /// Returns whether a read failed.
    pub fn failed(&self) -> bool
        ensures { result ≡ self.now.failed }
    {
        self.failed
    }

    /// Returns the bytes that were read and not yet taken.
    pub(crate) fn ahead(&self) -> &[u8]
        ensures { result.now ≡ ahead self.now }
    {
        self.reader.buffer()
    }

    /// Reads once if nothing is ahead. Then nothing is ahead only at the end.
    ///
    /// # Errors
    ///
    /// `DeviceFault` if the read fails, or if the input was filled 18,446,744,073,709,551,615 times
    /// before.
    pub(crate) fn fill(&mut self) -> Result<(), DeviceFault>
        requires { self.old.failed ≡ false }
        ensures fault { IsErr result ↔ IsTrue self.new.failed }
        ensures kept { Keeps (left R.remaining self.old) (left R.remaining self.new) }
        ensures end { OnOk result (ahead self.new ≡ [] → IsAtEnd (left R.remaining self.old)) }
        ensures fills { OnOk result (self.new.fills ≡ self.old.fills + 1) }
        ensures counted { self.old.fills + 1 < 2 ^ 64 → self.new.fills ≡ self.old.fills + 1 }
        ensures bound { self.new.fills < 2 ^ 64 }
    {
        if self.fills == u64::MAX {
            self.failed = true;
            return Err(DeviceFault);
        }
        self.fills += 1;
        match self.reader.fill_buf() {
            Ok(_) => Ok(()),
            Err(_) => {
                self.failed = true;
                Err(DeviceFault)
            }
        }
    }

    /// Takes the first bytes of those that are ahead.
    pub(crate) fn take(&mut self, count: usize)
        requires { count ≤ length (ahead self.old) }
        ensures taken { Consumes (left R.remaining self.old) (left R.remaining self.new)
            (take count (ahead self.old)) }
        ensures failed { self.new.failed ≡ self.old.failed }
        ensures fills { self.new.fills ≡ self.old.fills }
    {
        self.reader.consume(count);
    }
}
