//! Devices that fail: what a take and a put return, and that each calls its device once.

use odb_io::{DeviceFault, Input, Output};
use odb_testing::devices::{Pace, Slow};
use std::io::{self, Error, ErrorKind, Write};

/// A writer that takes as many bytes as it has room for; then it fails, or takes none if it is deaf.
#[derive(Drop)]
struct Full {
    room: usize,
    is_deaf: bool,
    calls: usize,
}

impl Write for Full {
    fn write(&mut self, bytes: &[u8]) -> io::Result<usize> {
        self.calls = self.calls.saturating_add(1);
        if self.room == 0 && !self.is_deaf {
            return Err(Error::from(ErrorKind::StorageFull));
        }
        let taken = bytes.len().min(self.room);
        self.room -= taken;
        Ok(taken)
    }

    fn flush(&mut self) -> io::Result<()> {
        Ok(())
    }
}

/// What the takes of an input return, in order, whose third read fails.
const TAKES: &[Result<usize, DeviceFault>] = &[Ok(1), Ok(1), Err(DeviceFault)];

/// What is put into an output with room for 10 bytes, and what each put returns.
const PUTS: &[(&[u8], Result<usize, DeviceFault>)] = &[
    (b"0123456", Ok(7)),
    (b"", Ok(0)),
    (b"0123456", Ok(3)),
    (b"0", Err(DeviceFault)),
];

/// Whether the takes return what is listed, and the input has failed after the last one alone.
fn takes_as_listed(input: &mut Input<Slow<'_>>) -> bool {
    for want in TAKES {
        if input.failed() || input.reads() >= 3 || input.take(&mut [0; 4]) != *want {
            return false;
        }
    }
    input.failed() && input.reads() == 3
}

/// Whether the puts return what is listed, and the output has failed after the last one alone.
fn puts_as_listed(output: &mut Output<Full>) -> bool {
    for (bytes, want) in PUTS {
        if output.failed() || output.put(bytes) != *want {
            return false;
        }
    }
    output.failed()
}

fn is_read_once_a_take() -> bool {
    let mut input = Input::new(Slow::new(b"aaa", Pace::bytewise(2)));
    takes_as_listed(&mut input) && input.into_inner().calls == 3
}

fn is_written_once_a_put(is_deaf: bool) -> bool {
    let mut output = Output::new(Full {
        room: 10,
        is_deaf,
        calls: 0,
    });
    puts_as_listed(&mut output) && output.into_inner().calls == 4
}

#[test]
fn remembers_a_read_that_failed(rt: HostRuntime) {
    assert!(rt; is_read_once_a_take());
}

#[test]
fn remembers_a_write_that_failed_or_took_nothing(rt: HostRuntime) {
    assert!(rt; is_written_once_a_put(false) && is_written_once_a_put(true));
}
