//! The exit statuses, and what is printed on standard error.

use odb_engine::{Ended, EngineFault};
use std::rt::Runtime;

/// The exit status of the program.
#[derive(Clone, Copy)]
pub enum Status {
    Done = 0,
    Refused = 1,
    WrongArguments = 2,
    Device = 3,
    Memory = 4,
}

/// Prints the error on standard error and returns the status. A failure to print it is ignored.
pub fn failed<R: Runtime>(rt: &R, cause: &str, status: Status) -> Status {
    let _ = eprintln!(rt; "error: {cause}");
    status
}

/// Prints that memory ran out, and returns the status.
pub fn out_of_memory<R: Runtime>(rt: &R) -> Status {
    failed(rt, "memory", Status::Memory)
}

/// Prints why an engine failed, if it did, and returns its exit status.
pub fn finish<R: Runtime>(rt: &R, ended: Result<Ended, EngineFault>) -> Status {
    match ended {
        Ok(Ended::Done) => Status::Done,
        Ok(Ended::Refused) => Status::Refused,
        Err(EngineFault::Read) => failed(rt, "read", Status::Device),
        Err(EngineFault::Write) => failed(rt, "write", Status::Device),
        Err(EngineFault::OutOfMemory) => out_of_memory(rt),
    }
}
