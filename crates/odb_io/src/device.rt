//! Readers and writers that may fail, and a limit on the calls of a reader.

ghost use Rattle.std.specs.Prelude.{◌≡◌, ◌≢◌, ◌+◌, ◌<◌, ◌≤◌, ◌↔◌, [], true, false, length, IsTrue, IsErr, IfOk, OnOk, OnErr};
ghost use Rattle.std.specs.Io.KnownBytes.{Appends, Keeps, ReadConsumes, WriteAppends};
ghost use Rattle.odb_io.specs.Devices.{AppendsPrefix};

use std::io::{Read, Write};
use std::marker::Model;
use thiserror::Error;

/// How often an input may be read: once for each byte of the longest document, and once more.
pub const MAX_READS: u32 = 16_777_217;

/// A read or write failed. The [`Input`] or [`Output`] remembers it: see `failed`.
#[derive(Clone, Copy, Debug, PartialEq, Eq, Error)]
#[error("the device failed")]
pub struct DeviceFault;

/// A reader that counts its reads and remembers whether one of them failed.
#[derive(Drop)]
pub struct Input<R> {
    reader: R,
    failed: bool,
    reads: u32,
}

impl<R> Model for Input<R> {
    ghost use Rattle.odb_io.specs.Devices.{Reading};

    ghost Value = { Reading R };

    ghost view = { λ input. record { reader = input.reader; failed = input.failed; reads = input.reads } };
}

impl<R: Read> Input<R> {
    /// Makes an input over a reader that was not read yet.
    pub fn new(reader: R) -> Self
        ensures { result ≡ record { reader = reader; failed = false; reads = 0 } }
    {
        Input {
            reader,
            failed: false,
            reads: 0,
        }
    }

    /// Returns the reader, as the reads so far have left it.
    pub fn into_inner(self) -> R
        ensures { result ≡ self.reader }
    {
        let Input { reader, .. } = self;
        reader
    }

    /// Returns whether a read failed.
    pub fn failed(&self) -> bool
        ensures { result ≡ self.now.failed }
    {
        self.failed
    }

    /// Returns how often `take` was called.
    pub fn reads(&self) -> u32
        ensures { result ≡ self.now.reads }
    {
        self.reads
    }

    /// Reads once into the buffer, and returns how many bytes were read: 0 at the end, or if the buffer
    /// is empty.
    ///
    /// Any error of the reader is a fault, an interrupted read among them.
    pub fn take(&mut self, buffer: &mut [u8]) -> Result<usize, DeviceFault>
        requires works { self.old.failed ≡ false }
        requires room { self.old.reads < 16777217 }
        ensures fault { IsErr result ↔ IsTrue self.new.failed }
        ensures reads { self.new.reads ≡ self.old.reads + 1 }
        ensures count { IfOk result (λ n. n ≤ length buffer.new) }
        ensures bytes { ReadConsumes (R.remaining self.old.reader) (R.remaining self.new.reader)
            result buffer.new }
    {
        self.reads += 1;
        match self.reader.read(buffer) {
            Ok(count) => Ok(count),
            Err(_) => {
                self.failed = true;
                Err(DeviceFault)
            }
        }
    }
}

/// A writer that remembers whether a write failed, and whether it was flushed since the last one.
#[derive(Drop)]
pub struct Output<W> {
    writer: W,
    failed: bool,
    flushed: bool,
}

impl<W> Model for Output<W> {
    ghost use Rattle.odb_io.specs.Devices.{Writing};

    ghost Value = { Writing W };

    ghost view = { λ output. record { writer = output.writer; failed = output.failed; flushed = output.flushed } };
}

impl<W: Write> Output<W> {
    /// Makes an output over the writer.
    pub fn new(writer: W) -> Self
        ensures { result ≡ record { writer = writer; failed = false; flushed = false } }
    {
        Output {
            writer,
            failed: false,
            flushed: false,
        }
    }

    /// Returns the writer, as the writes so far have left it.
    pub fn into_inner(self) -> W
        ensures { result ≡ self.writer }
    {
        let Output { writer, .. } = self;
        writer
    }

    /// Returns whether a write failed.
    pub fn failed(&self) -> bool
        ensures { result ≡ self.now.failed }
    {
        self.failed
    }

    /// Writes once, and returns how many of the bytes were written, from the first on.
    ///
    /// Any error of the writer is a fault, an interrupted write among them, and so is a write of some
    /// bytes that writes none.
    pub fn put(&mut self, bytes: &[u8]) -> Result<usize, DeviceFault>
        requires { self.old.failed ≡ false }
        ensures fault { IsErr result ↔ IsTrue self.new.failed }
        ensures count { IfOk result (λ n. n ≤ length bytes.now) }
        ensures progress { IfOk result (λ n. 0 < length bytes.now → 0 < n) }
        ensures bytes { WriteAppends (W.contents self.old.writer) (W.contents self.new.writer)
            result bytes.now }
        ensures held { self.new.flushed ≡ false }
    {
        self.flushed = false;
        match self.writer.write(bytes) {
            Ok(count) if count > 0 || bytes.is_empty() => Ok(count),
            _ => {
                self.failed = true;
                Err(DeviceFault)
            }
        }
    }

    /// Writes all bytes, in as many writes as the writer takes, none if there are no bytes. The writer is
    /// not flushed.
    ///
    /// # Errors
    ///
    /// `DeviceFault` if and only if a write failed. The writer has received a prefix of the bytes then.
    pub fn put_all(&mut self, bytes: &[u8]) -> Result<(), DeviceFault>
        requires { self.old.failed ≡ false }
        ensures fault { IsErr result ↔ IsTrue self.new.failed }
        ensures ok { OnOk result (Appends (W.contents self.old.writer)
            (W.contents self.new.writer) bytes.now) }
        ensures empty { bytes.now ≡ [] → self.new ≡ self.old }
        ensures err { OnErr result (AppendsPrefix (W.contents self.old.writer)
            (W.contents self.new.writer) bytes.now) }
        ensures held { bytes.now ≢ [] → self.new.flushed ≡ false }
    {
        let mut rest = bytes;
        while !rest.is_empty() {
            let count = self.put(rest)?;
            rest = &rest[count..];
        }
        Ok(())
    }

    /// Writes a whole text, as [`Output::put_all`] writes its bytes.
    ///
    /// # Errors
    ///
    /// `DeviceFault` if and only if a write failed. The writer has received a prefix of the text then.
    pub fn put_text(&mut self, text: &str) -> Result<(), DeviceFault>
        requires { self.old.failed ≡ false }
        ensures fault { IsErr result ↔ IsTrue self.new.failed }
        ensures ok { OnOk result (Appends (W.contents self.old.writer)
            (W.contents self.new.writer) text.now) }
        ensures empty { text.now ≡ [] → self.new ≡ self.old }
        ensures err { OnErr result (AppendsPrefix (W.contents self.old.writer)
            (W.contents self.new.writer) text.now) }
        ensures held { text.now ≢ [] → self.new.flushed ≡ false }
    {
        self.put_all(text.as_bytes())
    }

    /// Passes on what the writer holds back. If nothing was put since the last flush it does nothing.
    ///
    /// # Errors
    ///
    /// `DeviceFault` if and only if the writer fails to pass it on. Nothing new was written then.
    pub fn flush(&mut self) -> Result<(), DeviceFault>
        requires { self.old.failed ≡ false }
        ensures fault { IsErr result ↔ IsTrue self.new.failed }
        ensures bytes { Keeps (W.contents self.old.writer) (W.contents self.new.writer) }
        ensures flushed { OnOk result (self.new.flushed ≡ true) }
    {
        if self.flushed {
            return Ok(());
        }
        self.failed = self.writer.flush().is_err();
        if self.failed {
            return Err(DeviceFault);
        }
        self.flushed = true;
        Ok(())
    }
}
