//! How positions reach the buffer of the caller.

ghost use Rattle.std.specs.Prelude.{◌≡◌, ◌≤◌, ◌-◌, length};
ghost use Rattle.odb_calls.specs.Returns.{Fills};
ghost use Rattle.odb_calls.specs.Units.{GivesSpan, HasNumbers};

use crate::buffer::copy_to;
use crate::status::{DONE, SMALL_BUFFER};

/// Copies the positions to the buffer if they fit, sets how many there are, and returns the status.
pub fn give_positions(found: &[u32], buffer: &mut [u32], count: &mut usize) -> u32
    ensures { Fills found.now 0 result count.new buffer.old buffer.new }
{
    *count = found.len();
    if found.len() > buffer.len() {
        return SMALL_BUFFER;
    }
    copy_to(buffer, found);
    DONE
}

/// Writes the numbers from one up to another to the start of a buffer.
fn write_span(buffer: &mut [u32], from: u32, to: u32)
    requires order { from ≤ to }
    requires fits { to - from ≤ length buffer.old }
    ensures { HasNumbers from (to - from) buffer.old buffer.new }
{
    for i in from..to {
        buffer[(i - from) as usize] = i;
    }
}

/// Writes the positions from one up to another to the buffer if they fit, sets how many there are, and
/// returns the status.
pub fn give_span(from: u32, to: u32, buffer: &mut [u32], count: &mut usize) -> u32
    requires { from ≤ to }
    ensures count { count.new ≡ to - from }
    ensures span { GivesSpan from to result count.new buffer.old buffer.new }
{
    *count = (to - from) as usize;
    if *count > buffer.len() {
        return SMALL_BUFFER;
    }
    write_span(buffer, from, to);
    DONE
}
