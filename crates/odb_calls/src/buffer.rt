//! How a list or a text reaches the buffer of the caller.

ghost use Rattle.std.specs.Prelude.{◌≡◌, ◌≤◌, length, map};
ghost use Rattle.odb_calls.specs.Lists.{BeginsWith, Gives};
ghost use Rattle.odb_calls.specs.Returns.{Fills};

use crate::status::{DONE, SMALL_BUFFER};

/// Copies a list to the start of a buffer.
pub fn copy_to<T: Copy>(buffer: &mut [T], items: &[T])
    requires { length items.now ≤ length buffer.old }
    ensures { BeginsWith items.now buffer.old buffer.new }
{
    buffer[..items.len()].copy_from_slice(items);
}

/// Copies a text to the buffer if it fits, sets its length, and returns the status, which is then `done`.
pub fn give_text(found: &str, done: u32, text: &mut [u8], text_length: &mut usize) -> u32
    ensures { Fills found.now done result text_length.new text.old text.new }
{
    *text_length = found.len();
    if found.len() > text.len() {
        return SMALL_BUFFER;
    }
    copy_to(text, found.as_bytes());
    done
}

/// Copies a text and a list to the buffers if both fit, sets how long they are, and returns the status, which is then `done`.
pub fn give_list<T: Copy>(
    found: &str,
    items: &[T],
    done: u32,
    text: &mut [u8],
    text_length: &mut usize,
    buffer: &mut [T],
    count: &mut usize,
) -> u32
    ensures { Gives found.now items.now done result text_length.new count.new text.old text.new
        buffer.old buffer.new }
{
    *text_length = found.len();
    *count = items.len();
    if *text_length > text.len() || *count > buffer.len() {
        return SMALL_BUFFER;
    }
    copy_to(text, found.as_bytes());
    copy_to(buffer, items);
    done
}

/// Writes what is made of each item to the start of a buffer.
fn write_made<P: Copy, T: Copy, F: Fn(P) -> T>(buffer: &mut [T], items: &[P], make: F)
    requires fits { length items.now ≤ length buffer.old }
    requires make { F.IsAlwaysCallable make }
    ensures { (made : P → T) → ((item : P) (t : T) → F.post make item t → t ≡ made item)
        → BeginsWith (map made items.now) buffer.old buffer.new }
{
    for i in 0..items.len() {
        buffer[i] = make(items[i]);
    }
}

/// Copies a text, and what is made of each item of a list, to the buffers if both fit, sets how long they are, and returns the
/// status.
pub fn give_made<P: Copy, T: Copy, F: Fn(P) -> T>(
    found: &str,
    items: &[P],
    make: F,
    text: &mut [u8],
    text_length: &mut usize,
    buffer: &mut [T],
    count: &mut usize,
) -> u32
    requires { F.IsAlwaysCallable make }
    ensures { (made : P → T) → ((item : P) (t : T) → F.post make item t → t ≡ made item)
        → Gives found.now (map made items.now) 0 result text_length.new count.new text.old text.new
        buffer.old buffer.new }
{
    *text_length = found.len();
    *count = items.len();
    if *text_length > text.len() || *count > buffer.len() {
        return SMALL_BUFFER;
    }
    copy_to(text, found.as_bytes());
    write_made(buffer, items, make);
    DONE
}
