//! Headers as pairs in a text.

ghost use Rattle.std.specs.Prelude.{◌≡◌, ◌≢◌, ◌++◌, Err, IfErr, IfOk, OnOk, string_bytes};
ghost use Rattle.std.specs.List.{AllZip};
ghost use Rattle.odb_doc.specs.Headers.{headers_in};
ghost use Rattle.odb_engine.specs.declared.halt.Halt.TheVariants as halts;
ghost use Rattle.odb_engine.specs.Halts.{Halted};
ghost use Rattle.odb_calls.specs.Faults.{IsWord};
ghost use Rattle.odb_calls.specs.Headers.{ArePairs, IsPair};
ghost use Rattle.odb_calls.specs.Refused.{RefusesHeaders};

use crate::header::Header;
use crate::outcome::outcome_of;
use crate::request::Part;
use odb_engine::Halt;
use std::alloc::{AllocError, Global};
use std::collections::BTreeMap;

/// Headers as pairs.
#[derive(Drop)]
pub struct Headers {
    /// The text in which names and values lie.
    pub text: String,
    /// The headers, in byte order of their names.
    pub pairs: Vec<Header>,
}

/// Appends a word, and returns where it lies.
fn push_word(text: &mut String, word: &str) -> Result<Part, AllocError>
    ensures text { OnOk result (string_bytes text.new ≡ string_bytes text.old ++ word.now) }
    ensures word { IfOk result (IsWord (string_bytes text.new) word.now) }
{
    let start = text.len();
    text.push_str(word)?;
    Ok(Part {
        start,
        length: word.len(),
    })
}

/// Appends a name and a value, and returns where they lie.
fn push_header(text: &mut String, name: &str, value: &str) -> Result<Header, AllocError>
    ensures text { OnOk result (string_bytes text.new ≡ string_bytes text.old ++ (name.now ++ value.now)) }
    ensures pair { IfOk result (IsPair (string_bytes text.new) (name.now, value.now)) }
{
    let name = push_word(text, name)?;
    let value = push_word(text, value)?;
    Ok(Header { name, value })
}

/// Returns the headers of a map as pairs.
fn paired(alloc: Global, headers: &BTreeMap<String, String>) -> Result<Headers, AllocError>
    ensures { IfOk result (λ found. AllZip (IsPair (string_bytes found.text))
        (headers_in headers.now) found.pairs.items) }
{
    let mut text = String::new(alloc);
    let mut pairs = Vec::with_capacity(alloc, headers.len())?;
    for (name, value) in headers.iter() {
        pairs.push(push_header(&mut text, name.as_str(), value.as_str())?)?;
    }
    Ok(Headers { text, pairs })
}

/// Returns the headers in these bytes as pairs. They are those that an outcome takes, which has to have a status.
pub fn headers_of(alloc: Global, bytes: &[u8]) -> Result<Headers, Halt>
    ensures pairs { IfOk result (λ found. ArePairs bytes.now (string_bytes found.text)
        found.pairs.items) }
    ensures refused { IfErr result (Halted (RefusesHeaders bytes.now)) }
    ensures read { result ≢ Err halts.Read }
{
    let outcome = outcome_of(alloc, 200, bytes)?;
    let Some(headers) = outcome.headers() else {
        return Ok(Headers {
            text: String::new(alloc),
            pairs: Vec::new(alloc),
        });
    };
    match paired(alloc, headers) {
        Ok(headers) => Ok(headers),
        Err(_) => Err(Halt::OutOfMemory),
    }
}
