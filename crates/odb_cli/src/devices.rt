//! Where the program reads and writes: a file or standard input, and standard output or nothing.

use crate::command_line::Origin;
use crate::ending::{Status, failed, out_of_memory};
use std::io::{Printer, Read, Write};
use std::rt::Runtime;
use std::{fs, io};

/// A reader of a document or a log.
#[derive(Drop)]
pub enum Document<F, S> {
    Nothing,
    StandardInput(S),
    File(F),
}

impl<F: Read, S: Read> Read for Document<F, S> {
    fn read(&mut self, buffer: &mut [u8]) -> io::Result<usize> {
        match self {
            Document::Nothing => Ok(0),
            Document::StandardInput(input) => input.read(buffer),
            Document::File(file) => file.read(buffer),
        }
    }
}

/// A writer of results.
#[derive(Drop)]
pub enum Results<W> {
    /// They are written.
    Printed(W),
    /// They are dropped.
    Quiet,
}

impl<W: Write> Write for Results<W> {
    fn write(&mut self, bytes: &[u8]) -> io::Result<usize> {
        match self {
            Results::Printed(writer) => writer.write(bytes),
            Results::Quiet => Ok(bytes.len()),
        }
    }

    fn flush(&mut self) -> io::Result<()> {
        match self {
            Results::Printed(writer) => writer.flush(),
            Results::Quiet => Ok(()),
        }
    }
}

/// Prints that the file cannot be opened, and why. Returns the status.
fn not_opened<R: Runtime>(rt: &R, path: &str, error: io::Error) -> Status {
    if error.kind() == io::ErrorKind::OutOfMemory {
        return out_of_memory(rt);
    }
    let status = failed(rt, "open", Status::Device);
    let _ = eprintln!(rt; "{path}: {error}");
    status
}

/// Opens a document, or returns the status of a program that cannot open it.
pub fn open<R: Runtime>(
    rt: &R,
    origin: Origin<'_>,
) -> Result<Document<R::File, R::Reader>, Status> {
    match origin {
        Origin::Nowhere => Ok(Document::Nothing),
        Origin::StandardInput => Ok(Document::StandardInput(rt.reader())),
        Origin::File(path) => match fs::open(rt, path) {
            Ok(file) => Ok(Document::File(file)),
            Err(error) => Err(not_opened(rt, path, error)),
        },
    }
}

/// Returns the writer of a command.
pub fn writer_of<R: Runtime>(rt: &R, quiet: bool) -> Results<Printer<'_, R>> {
    if quiet {
        Results::Quiet
    } else {
        Results::Printed(io::writer(rt))
    }
}
