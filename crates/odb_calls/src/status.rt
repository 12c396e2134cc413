//! What a call returns.

ghost use Rattle.std.specs.Prelude.{◌≡◌, ◌+◌};
ghost use Rattle.odb_resolve.specs.Resolutions.{number_of};
ghost use Rattle.odb_sched.specs.run.Steps.{report_number, start_number};
ghost use Rattle.odb_calls.specs.Returns as returns;

use odb_engine::{Ended, Halt};
use odb_resolve::Refusal;
use odb_sched::{ReportRefusal, StartRefusal};

/// The command wrote its result, or the event has come.
pub const DONE: u32 = 0;

/// A document is refused, and the text is the line of its fault.
pub const REFUSED: u32 = 1;

/// An option is a number that it may not be, a text is no place, or there is no request at a position or with an id.
pub const WRONG_OPTION: u32 = 2;

/// An allocation failed.
pub const OUT_OF_MEMORY: u32 = 4;

/// What is written is longer than the buffer.
pub const SMALL_BUFFER: u32 = 5;

/// Returns the status of an end.
pub fn of_end(ended: Ended) -> u32
    ensures { result ≡ returns.status_of ended }
{
    match ended {
        Ended::Done => DONE,
        Ended::Refused => REFUSED,
    }
}

/// Returns the status of a halt: of a refused document, or of an allocation that failed, since no read of memory does.
pub fn of_halt(halt: Halt) -> u32
    ensures { result ≡ returns.halt_status halt }
{
    match halt {
        Halt::Refused(_) => REFUSED,
        Halt::Read | Halt::OutOfMemory => OUT_OF_MEMORY,
    }
}

/// Returns the status of a request that is not sent: from 31 to 35 for the refusals 1 to 5.
pub fn of_refusal(refusal: Refusal) -> u32
    ensures { result ≡ 30 + number_of refusal }
{
    match refusal {
        Refusal::Unreadable => 31,
        Refusal::Outside => 32,
        Refusal::NoLocation => 33,
        Refusal::NoTag => 34,
        Refusal::NotAnswered => 35,
    }
}

/// Returns the status of a start that is refused: from 11 to 15 for S1 to S5.
pub fn of_start(cause: StartRefusal) -> u32
    ensures { result ≡ 10 + start_number cause }
{
    match cause {
        StartRefusal::AlreadyStarted => 11,
        StartRefusal::Stopped => 12,
        StartRefusal::UnitFailed => 13,
        StartRefusal::Waiting(_) => 14,
        StartRefusal::WidthReached => 15,
    }
}

/// Returns the status of a report that is refused: 21 for P1 and 22 for P2.
pub fn of_report(cause: ReportRefusal) -> u32
    ensures { result ≡ 20 + report_number cause }
{
    match cause {
        ReportRefusal::NotRunning => 21,
        ReportRefusal::BadStatus => 22,
    }
}
