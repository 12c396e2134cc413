//! How a batch is run: whether an error stops it, and how many requests run at once.

ghost use Rattle.std.specs.Prelude.{◌≡◌, ◌<◌, ◌↔◌, IsSome, IfSome};

/// The greatest width that makes a difference: a batch has no more requests.
pub const MAX_WIDTH: u32 = 10_000;

/// Whether a run continues after an error (OData Protocol 4.01, section 8.2.8.3, the preference
/// `continue-on-error`).
#[derive(Clone, Copy, Debug, PartialEq, Eq)]
pub enum Mode {
    /// Only what depends on a request that did not succeed is skipped.
    Continue,
    /// Nothing starts any more once a status from 400 to 599 was reported.
    Stop,
}

/// How a batch is run.
#[derive(Clone, Copy, Debug, PartialEq, Eq)]
pub struct Policy {
    /// Whether an error stops the run.
    pub mode: Mode,
    /// The number of requests that may run at once, where a unit that is sent as one counts as one.
    pub width: u32,
    ghost wide: { 0 < width },
}

impl Policy {
    /// Returns a policy under which no request waits for one that it does not depend on: its width
    /// is the greatest number of requests in a batch, so no start is refused because of it.
    pub fn free(mode: Mode) -> Policy
        ensures mode { result.mode ≡ mode }
        ensures width { result.width ≡ 10000 }
    {
        Policy {
            mode,
            width: MAX_WIDTH,
        }
    }

    /// Returns a policy of this width, or `None` if the width is 0.
    pub fn new(mode: Mode, width: u32) -> Option<Policy>
        ensures valid { IsSome result ↔ (0 < width) }
        ensures mode { IfSome result (λ policy. policy.mode ≡ mode) }
        ensures width { IfSome result (λ policy. policy.width ≡ width) }
    {
        if width == 0 {
            return None;
        }
        Some(Policy { mode, width })
    }
}
