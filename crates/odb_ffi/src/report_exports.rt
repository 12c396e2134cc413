//! The call for C that says why a report is refused.

ghost use Rattle.odb_engine.specs.declared.form.Form.TheVariants.{Lines};
ghost use Rattle.odb_calls.specs.ReportFaults.{ChecksReport};
ghost use Rattle.odb_calls.specs.Returns.{Returns};

use odb_calls::report_faults::give_fault;
use std::alloc::Global;

/// Writes the line of the fault by which [`crate::run_exports::odb_run_report`] refuses these headers or this body: the fault of a
/// document of events that has this report alone. Each of the two may be empty, as `null`, for none.
///
/// Returns 0 and no text if a report may have them; 1, and `text` begins with the line; 5 if the line is longer than `text`, and
/// `text_length` is its length; and 4 if an allocation fails. The status and the request make no difference: 21 and 22 say why one of
/// those is refused.
#[unsafe(no_mangle)]
pub extern "C" fn odb_report_fault(
    alloc: Global,
    headers: &[u8],
    body: &[u8],
    text: &mut [u8],
    text_length: &mut usize,
) -> u32
    ensures { Returns (ChecksReport headers.now body.now Lines) result text_length.new text.old text.new }
{
    give_fault(alloc, headers, body, text, text_length)
}
