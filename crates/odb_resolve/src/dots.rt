//! Paths without the segments `.` and `..`.

ghost use Rattle.std.specs.Prelude.{◌≡◌, ◌++◌, IfOk, OnOk};
ghost use Rattle.odb_resolve.specs.Dots.{closing, remove_dots, take_segment, without_last};

use crate::run::{Class, split_run};
use crate::text::folder_len;
use std::alloc::{AllocError, Global};

/// Removes the last segment of the output, and the `/` before it.
fn remove_last(output: &mut Vec<u8>)
    ensures { output.new.items ≡ without_last output.old.items }
{
    let folder = folder_len(output.as_slice());
    output.truncate(folder.saturating_sub(1));
}

/// Appends a `/` if the segment is the last.
fn close(output: &mut Vec<u8>, is_last: bool) -> Result<(), AllocError>
    ensures { OnOk result (output.new.items ≡ output.old.items ++ closing is_last) }
{
    if is_last {
        output.push(b'/')?;
    }
    Ok(())
}

/// Takes a segment from the input (RFC 3986, section 5.2.4, steps B to E).
fn take_segment(output: &mut Vec<u8>, segment: &[u8], is_last: bool) -> Result<(), AllocError>
    ensures { OnOk result (output.new.items ≡ take_segment output.old.items segment.now is_last) }
{
    if segment == b".".as_slice() {
        return close(output, is_last);
    }
    if segment == b"..".as_slice() {
        remove_last(output);
        return close(output, is_last);
    }
    output.push(b'/')?;
    output.extend_from_slice(segment)
}

/// Returns the path without dot segments (RFC 3986, section 5.2.4), if it begins with `/`.
#[tactic(auto, unfolding(crate::specs::Dots::remove_dots))]
pub(crate) fn remove_dots(alloc: Global, path: &[u8]) -> Result<Vec<u8>, AllocError>
    ensures { IfOk result (λ output. output.items ≡ remove_dots path.now) }
{
    let [b'/', inside @ ..] = path else {
        return Vec::from_slice(alloc, path);
    };
    let mut output = Vec::with_capacity(alloc, path.len())?;
    let mut input = inside;
    'segments: loop {
        let (segment, after) = split_run(input, Class::Segment);
        take_segment(&mut output, segment, after.is_empty())?;
        match after {
            [_, more @ ..] => input = more,
            [] => return Ok(output),
        }
    }
}
