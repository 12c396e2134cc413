//! Whether a request may be sent again.

ghost use Rattle.std.specs.Prelude.{◌≡◌};
ghost use Rattle.odb_send.specs.Repeats as repeats;

use odb_doc::status::is_success;
use odb_names::Method;

/// Returns whether nothing was performed by the status: 424, 429 or 503.
fn is_unperformed(status: u16) -> bool
    ensures { result ≡ repeats.is_unperformed status }
{
    status == 424 || status == 429 || status == 503
}

/// Returns whether nobody knows by the status whether the request was performed: 408, 502 or 504.
fn is_uncertain(status: u16) -> bool
    ensures { result ≡ repeats.is_uncertain status }
{
    status == 408 || status == 502 || status == 504
}

/// Returns whether a request with the method that was answered with the status may be sent again.
pub(crate) fn may_repeat(method: Method, status: u16) -> bool
    ensures { result ≡ repeats.may_repeat method status }
{
    is_success(status) || is_unperformed(status) || (is_uncertain(status) && method.is_idempotent())
}
