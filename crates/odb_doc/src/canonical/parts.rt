//! The canonical text of one request.

ghost use Rattle.std.specs.Prelude.{◌≡◌, ◌<◌, ◌+◌, ◌++◌, ◌∷◌, false, codes, length, map, string_bytes, OnOk};
ghost use Rattle.serde_json.specs.Data.{object, string};
ghost use Rattle.serde_json.specs.Written.{comma_if, compact_text};
ghost use Rattle.odb_doc.specs.batch.Batches.{records};
ghost use Rattle.odb_doc.specs.canonical.Canonical.{HasWholeBodies, header_members, headers_value};
ghost use Rattle.odb_doc.specs.batch.Records.{record_of};
ghost use Rattle.odb_doc.specs.Headers.{lent_header};
ghost use Rattle.odb_doc.specs.canonical.CanonicalParts as canonical_parts;
ghost use Rattle.odb_doc.specs.Texts.{member_part};

use crate::batch::Batch;
use crate::batch::folded::Header;
use crate::batch::request::Request;
use crate::text::{push_body, push_group, push_header, push_names, push_open, push_request_end};
use std::alloc::{AllocError, Global};

/// Appends a header with its name in lower case, with a comma first unless it is the first header.
fn push_lent(
    alloc: Global,
    text: &mut String,
    later: bool,
    header: Header<'_>,
) -> Result<(), AllocError>
    ensures { OnOk result (string_bytes text.new ≡ string_bytes text.old
        ++ (comma_if later ++ (compact_text (string (lent_header header.entry).0)
        ++ 58 ∷ compact_text (string (lent_header header.entry).1)))) }
{
    let name = header.name(alloc)?;
    push_header(alloc, text, later, name.as_str(), header.value)
}

/// Appends the headers as the members of an object, and the end of the object.
fn push_members(alloc: Global, text: &mut String, headers: &[Header<'_>]) -> Result<(), AllocError>
    ensures { OnOk result (string_bytes text.new ≡ string_bytes text.old
        ++ canonical_parts.headers_left false (map lent_header headers.now)) }
{
    for k in 0..headers.len() {
        push_lent(alloc, text, k > 0, headers[k])?;
    }
    text.push_str("}")
}

impl Request<'_> {
    /// Appends the headers as a JSON object, which is empty if there are none: names in lower case, in byte
    /// order.
    ///
    /// # Errors
    ///
    /// If an allocation fails; the text may have received a part of the object.
    pub fn push_headers(&self, alloc: Global, text: &mut String) -> Result<(), AllocError>
        ensures { OnOk result (string_bytes text.new ≡ string_bytes text.old
            ++ compact_text (object (header_members (record_of self.now).headers))) }
    {
        text.push_str("{")?;
        push_members(alloc, text, self.headers.as_slice())
    }

    /// Appends the member `headers` and a comma, if there are headers.
    ///
    /// # Errors
    ///
    /// If an allocation fails; the text may have received a part of the member.
    pub fn push_headers_member(&self, alloc: Global, text: &mut String) -> Result<(), AllocError>
        ensures { OnOk result (string_bytes text.new ≡ string_bytes text.old
            ++ member_part (codes "\"headers\":") (headers_value (record_of self.now).headers)) }
    {
        let headers = self.headers.as_slice();
        if headers.is_empty() {
            return Ok(());
        }
        text.push_str("\"headers\":{")?;
        push_members(alloc, text, headers)?;
        text.push_str(",")
    }
}

/// Appends request `i`, with a comma first unless it is the first request.
pub(crate) fn push_request(
    alloc: Global,
    text: &mut String,
    batch: &Batch<'_>,
    i: u32,
) -> Result<(), AllocError>
    requires request { i < length (records batch.now) }
    requires whole { HasWholeBodies (records batch.now) }
    ensures { OnOk result (string_bytes text.old ++ canonical_parts.requests_left (records batch.now) i
        ≡ string_bytes text.new ++ canonical_parts.requests_left (records batch.now) (i + 1)) }
{
    let request = batch.request(i);
    push_open(text, i > 0)?;
    push_group(alloc, text, request.group)?;
    push_body(alloc, text, request.body)?;
    push_names(alloc, text, request.names.as_slice())?;
    request.push_headers_member(alloc, text)?;
    push_request_end(alloc, text, request.id, request.method, request.url)
}
