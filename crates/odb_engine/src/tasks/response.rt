//! The response as the end of a text.

ghost use Rattle.std.specs.Prelude.{◌≡◌, ◌++◌, IfErr, OnOk, string_bytes};
ghost use Rattle.odb_reply.specs.NotWhole.{HasWholeBodies};
ghost use Rattle.odb_engine.specs.declared.halt.Halt.TheVariants as halts;
ghost use Rattle.odb_engine.specs.ResponseLines.{response_line};

use crate::halt::Halt;
use odb_reply::push_whole_response;
use odb_sched::Done;
use std::alloc::Global;

/// Appends the response to a finished run as a line. Its bodies have whole numbers alone.
pub fn push_response(alloc: Global, text: &mut String, done: &Done<'_>) -> Result<(), Halt>
    requires { HasWholeBodies done.now }
    ensures text { OnOk result (string_bytes text.new ≡ string_bytes text.old ++ response_line done.now) }
    ensures memory { IfErr result (λ halt. halt ≡ halts.OutOfMemory) }
{
    push_whole_response(alloc, text, done)?;
    Ok(text.push('\n')?)
}
