//! The body of an answer as JSON text.

ghost use Rattle.std.specs.Prelude.{◌≡◌, ◌≢◌, ◌≤◌, length, Err, Some, option_map, string_bytes, IfOk, IfSome, OnOk, IsUtf8};
ghost use Rattle.odb_doc.specs.Documents.{most_bytes};
ghost use Rattle.odb_reply.specs.declared.json_text.BodyFault.TheVariants as faults;
ghost use Rattle.odb_reply.specs.BodyTexts.{IsBody, IsNoBody, text_at};
ghost use Rattle.odb_reply.specs.Parts.{IsNoValue, IsValue};

use crate::pass::{is_null_token, is_one_value};
use json::{Reader, Scratch};
use odb_doc::MAX_DOCUMENT_BYTES;
use std::alloc::{AllocError, Global};
use std::marker::Model;
use thiserror::Error;

/// The limit on how deep a body nests: a response nests three levels deeper, and `serde_json` reads 127.
const MOST_DEPTH: usize = 124;

/// The JSON text of a body, whatever numbers it has. It is not null, and nests at most 124 deep.
#[derive(Drop)]
pub struct JsonText {
    text: String,
}

impl Model for JsonText {
    ghost use Rattle.std.specs.Prelude.{ℕ, List, Some, string_bytes};
    ghost use Rattle.odb_reply.specs.BodyTexts.{IsBody};

    ghost Value = { List ℕ };

    ghost view = { λ text. string_bytes text.text };

    ghost invariant = { λ text. IsBody (string_bytes text.text) (Some (string_bytes text.text)) };
}

/// Why bytes are not the JSON text of a body.
#[derive(Clone, Copy, Debug, PartialEq, Eq, Error)]
pub enum BodyFault {
    /// They are longer than 16,777,216 bytes, they are not JSON, or they nest more than 124 deep.
    #[error("the body is not JSON that nests at most 124 deep")]
    Refused,
    /// Out of memory.
    #[error("out of memory")]
    OutOfMemory,
}

impl From<AllocError> for BodyFault {
    ghost from_gives = { λ _ fault. fault ≡ faults.OutOfMemory };

    fn from(_error: AllocError) -> Self {
        BodyFault::OutOfMemory
    }
}

/// Returns the text in these bytes.
fn text_in(bytes: &[u8]) -> Result<&str, BodyFault>
    ensures text { IfOk result (λ text. text.now ≡ bytes.now) }
    ensures small { OnOk result ((length bytes.now ≤ most_bytes) × IsUtf8 bytes.now) }
    ensures refused { result ≡ Err faults.Refused → IsNoBody bytes.now }
    ensures memory { result ≢ Err faults.OutOfMemory }
{
    if bytes.len() > MAX_DOCUMENT_BYTES {
        return Err(BodyFault::Refused);
    }
    match simdutf8::compat::from_utf8(bytes) {
        Ok(text) => Ok(text),
        Err(_) => Err(BodyFault::Refused),
    }
}

/// Returns whether the text is the JSON null. Refuses it unless it is JSON that nests at most 124 deep, also
/// in a member that a later one of its name replaces.
fn is_null(alloc: Global, text: &str) -> Result<bool, BodyFault>
    ensures value { IfOk result (IsValue text.now) }
    ensures refused { result ≡ Err faults.Refused → IsNoValue text.now }
{
    let mut scratch = Scratch::new(alloc);
    let mut reader = Reader::new(text, &mut scratch)?;
    let first = reader.next().ok_or(BodyFault::Refused)?;
    let null = is_null_token(&first);
    if is_one_value(first, &mut reader, MOST_DEPTH) {
        Ok(null)
    } else {
        Err(BodyFault::Refused)
    }
}

impl JsonText {
    /// Returns these bytes as the text of a body, or `None` if they are the JSON null, which is treated as
    /// no body.
    ///
    /// The reader checks the bytes in one pass, which makes no value of them; then they are copied. Takes O(n) for
    /// n bytes.
    ///
    /// # Errors
    ///
    /// `Refused` if and only if the bytes are not such a text: they are longer than 16,777,216 bytes, they
    /// are not JSON, or they nest more than 124 deep. `OutOfMemory` if an allocation fails.
    pub fn read(alloc: Global, bytes: &[u8]) -> Result<Option<JsonText>, BodyFault>
        ensures body { IfOk result (IsBody bytes.now) }
        ensures refused { result ≡ Err faults.Refused → IsNoBody bytes.now }
    {
        let text = text_in(bytes)?;
        let is_null = is_null(alloc, text)?;
        if is_null {
            return Ok(None);
        }
        let text = String::from_str(alloc, text)?;
        Ok(Some(JsonText { text }))
    }

    /// Returns the text: the bytes that were read.
    pub fn as_str(&self) -> &str
        ensures text { result.now ≡ self.now }
        ensures body { IsBody result.now (Some result.now) }
    {
        self.text.as_str()
    }
}

/// Returns the text at a position, if there is one.
pub(crate) fn text_at(texts: &[Option<JsonText>], i: u32) -> Option<&str>
    ensures text { option_map (λ text. text.now) result ≡ text_at texts.now i }
    ensures body { IfSome result (λ text. IsBody text.now (Some text.now)) }
{
    match texts.get(i as usize) {
        Some(Some(text)) => Some(text.as_str()),
        _ => None,
    }
}
