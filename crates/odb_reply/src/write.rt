//! Writes the response of a finished run through a buffer.

ghost use Rattle.std.specs.Prelude.{◌≡◌, ◌≢◌, ◌↔◌, ◌++◌, [], ℕ, true, false, Some, length, string_bytes, IsErr, IsTrue, OnOk, OnErr};
ghost use Rattle.std.specs.Io.KnownBytes.{Appends};
ghost use Rattle.serde_json.specs.Read.{read};
ghost use Rattle.odb_reply.specs.declared.write.ReplyFault.TheVariants as faults;
ghost use Rattle.odb_reply.specs.Fits.{ListsFit};
ghost use Rattle.odb_reply.specs.NotWhole.{HasWholeBodies, IsFirstNotWhole, reply_row};
ghost use Rattle.odb_reply.specs.OnePerId.{HasOnePerId};
ghost use Rattle.odb_io.specs.Devices.{HasWritten, AppendsPrefix};
ghost use Rattle.odb_reply.specs.Parts.{rest_text};
ghost use Rattle.odb_sched.specs.run.Answers.{answer};
ghost use Rattle.odb_sched.specs.run.State.{size};
ghost use Rattle.odb_sched.specs.run.Steps.{is_finished};
ghost use Rattle.odb_reply.specs.Readable.{HasShallowBodies};
ghost use Rattle.odb_reply.specs.ResponseDocuments.{IsResponseDocument};
ghost use Rattle.odb_reply.specs.Responses.{response_text, response_value};

use crate::labels::Labels;
use crate::laws::every_response;
use crate::parts::push_response;
use crate::whole::first_not_whole_of;
use odb_doc::{Fault, Refusal, TextFault};
use odb_io::{DeviceFault, Output};
use odb_sched::{Done, OwnedRun};
use std::alloc::{AllocError, Global};
use std::io::Write;
use thiserror::Error;

/// Why a response was not written, or not completely.
#[derive(Clone, Copy, Debug, PartialEq, Eq, Error)]
pub enum ReplyFault {
    /// F50: the body that answers the request at this position, counted from 0, holds a number that
    /// is not whole. Nothing was written.
    #[error("request {at}: the body holds a number that is not whole")]
    NotWhole { at: usize },
    /// The output failed. It has received a prefix of the response.
    #[error("the output failed")]
    Write,
    /// Out of memory. The output has received a prefix of the response.
    #[error("out of memory")]
    OutOfMemory,
}

impl Fault for ReplyFault {
    ghost row = { reply_row };

    fn refusal(&self) -> Option<Refusal> {
        match *self {
            ReplyFault::NotWhole { at } => TextFault::NotWhole { at }.refusal(),
            ReplyFault::Write | ReplyFault::OutOfMemory => None,
        }
    }
}

impl From<DeviceFault> for ReplyFault {
    ghost from_gives = { λ _ fault. fault ≡ faults.Write };

    fn from(_fault: DeviceFault) -> Self {
        Self::Write
    }
}

impl From<AllocError> for ReplyFault {
    ghost from_gives = { λ _ fault. fault ≡ faults.OutOfMemory };

    fn from(_error: AllocError) -> Self {
        ReplyFault::OutOfMemory
    }
}

/// The size at which the buffer is written out.
const BUFFER_BYTES: usize = 65_536;

/// Writes the buffer out and clears it, if it is full.
fn write_full<W: Write>(output: &mut Output<W>, buffer: &mut String) -> Result<(), DeviceFault>
    requires { output.old.failed ≡ false }
    ensures fault { IsErr result ↔ IsTrue output.new.failed }
    ensures ok { OnOk result (HasWritten (W.contents output.old.writer)
        (W.contents output.new.writer) (string_bytes buffer.old) (string_bytes buffer.new)) }
    ensures err { OnErr result (AppendsPrefix (W.contents output.old.writer)
        (W.contents output.new.writer) (string_bytes buffer.old)) }
{
    if buffer.len() >= BUFFER_BYTES {
        output.put_text(buffer.as_str())?;
        buffer.clear();
    }
    Ok(())
}

/// Appends all responses and the end of the text to the buffer, and writes it out whenever it is
/// full.
fn buffer_responses<W: Write, L: Labels>(
    alloc: Global,
    output: &mut Output<W>,
    buffer: &mut String,
    labels: &L,
    run: &OwnedRun,
) -> Result<(), ReplyFault>
    requires works { output.old.failed ≡ false }
    requires labels { length (L.labels labels.now) ≡ size run.now }
    requires finished { is_finished run.now ≡ true }
    requires whole { HasWholeBodies run.now }
    ensures ok { OnOk result (HasWritten (W.contents output.old.writer)
        (W.contents output.new.writer)
        (string_bytes buffer.old ++ rest_text (L.labels labels.now) [] (answer run.now) 0)
        (string_bytes buffer.new)) }
    ensures err { OnErr result (AppendsPrefix (W.contents output.old.writer)
        (W.contents output.new.writer)
        (string_bytes buffer.old ++ rest_text (L.labels labels.now) [] (answer run.now) 0)) }
    ensures write { (result ≡ Err ReplyFault.Write) ↔ IsTrue output.new.failed }
    ensures whole { (at : ℕ) → result ≢ Err (faults.NotWhole at) }
{
    for i in 0..run.len() {
        push_response(alloc, buffer, labels, &[], run, i)?;
        write_full(output, buffer)?;
    }
    Ok(buffer.push_str("]}")?)
}

/// Writes the response to a batch whose run has finished (OData JSON Format 4.01, section 19.5): the
/// text that [`crate::response_text`] returns. The writer is not flushed.
///
/// Allocates the text of one body or header at a time, and a buffer: it is written out once it holds
/// 64 KiB, so it holds less than that and one response. What was written is read again as
/// [`crate::response_text`] says.
///
/// Example: `is_written` in crates/odb_tests_text/src/replies.rt.
///
/// # Errors
///
/// `NotWhole` if and only if a body of the response holds a number that is not whole, with the first
/// such request; nothing is written then. Else `Write` if and only if the output failed, and
/// `OutOfMemory` if an allocation fails.
pub fn write_responses<W: Write>(
    alloc: Global,
    output: &mut Output<W>,
    done: &Done<'_>,
) -> Result<(), ReplyFault>
    requires { output.old.failed ≡ false }
    ensures ok { OnOk result (Appends (W.contents output.old.writer) (W.contents output.new.writer)
        (response_text done.now)) }
    ensures err { OnErr result (AppendsPrefix (W.contents output.old.writer)
        (W.contents output.new.writer) (response_text done.now)) }
    ensures write { (result ≡ Err ReplyFault.Write) ↔ IsTrue output.new.failed }
    ensures not_whole { (at : ℕ)
        → (result ≡ Err (faults.NotWhole at)) ↔ IsFirstNotWhole done.now at }
    ensures unwritten { (at : ℕ) → result ≡ Err (faults.NotWhole at) → output.new ≡ output.old }
    ensures one_per_id { HasOnePerId done.now.requests (response_value done.now) }
    ensures fits { ListsFit done.now.requests (response_value done.now) }
    ensures document { IsResponseDocument (response_value done.now) }
    ensures reads_back { OnOk result (HasShallowBodies done.now
        → read (response_text done.now) ≡ Some (response_value done.now)) }
{
    every_response(done);
    if let Some(at) = first_not_whole_of(done) {
        return Err(ReplyFault::NotWhole { at: at as usize });
    }
    let mut buffer = String::from_str(alloc, "{\"responses\":[")?;
    buffer_responses(alloc, output, &mut buffer, done.plan(), done.run())?;
    Ok(output.put_text(buffer.as_str())?)
}
