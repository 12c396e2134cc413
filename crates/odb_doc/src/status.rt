//! What a status means (OData JSON Format 4.01, section 19.4; OData Protocol 4.01, section 11.7).

ghost use Rattle.std.specs.Prelude.{◌≡◌};
ghost use Rattle.odb_doc.specs.Statuses as statuses;

/// 424 Failed Dependency: the request was not performed, or was undone.
pub const FAILED_DEPENDENCY: u16 = 424;

/// Returns whether a status is a success, which is 200 to 299.
pub fn is_success(status: u16) -> bool
    ensures { result ≡ statuses.is_success status }
{
    (200..300).contains(&status)
}

/// Returns whether an outcome may have this status, which is 200 to 599.
pub fn is_status(status: u16) -> bool
    ensures { result ≡ statuses.is_status status }
{
    (200..600).contains(&status)
}

/// Returns whether a status is an error of the client or the server, which is 400 to 599.
pub fn is_error(status: u16) -> bool
    ensures { result ≡ statuses.is_error status }
{
    (400..600).contains(&status)
}
