//! One pass over the tokens of a text: whether `serde_json` reads it, and how deep it nests. No value is made.

ghost use Rattle.std.specs.Prelude.{◌≡◌, ◌<◌, ◌≤◌, ◌↔◌, [], ◌∷◌, length, is_some, Some, None, OnOk, MatchResult, IsTrue, true, false};
ghost use Rattle.json.specs.Reads.{token_of};
ghost use Rattle.serde_json.specs.Read.{number_of, number_from};
ghost use Rattle.odb_reply.specs.Passes.{is_null_token, pass_value, pass_items, pass_members};

use fast_float::Numeral;
use json::{Invalid, Reader, Token};

/// Returns whether a number without a minus is in range, by its parts.
fn is_unsigned_in_range(numeral: &Numeral<'_>) -> bool
    ensures { result ≡ is_some (number_from false numeral.now) }
{
    numeral.to_u64().is_some() || numeral.to_float::<f64>(false).is_finite()
}

/// Returns whether a number with a minus is in range, by the parts that follow the minus.
fn is_negative_in_range(numeral: &Numeral<'_>) -> bool
    ensures { result ≡ is_some (number_from true numeral.now) }
{
    matches!(numeral.to_i64(true), Some(n) if n < 0) || numeral.to_float::<f64>(true).is_finite()
}

/// Returns whether a number is in the range that `serde_json` reads: an integer of 64 bits, or a finite float.
fn is_in_range(digits: &str) -> bool
    ensures { result ≡ is_some (number_of digits.now) }
{
    let bytes = digits.as_bytes();
    match bytes.strip_prefix(b"-") {
        Some(rest) => is_negative_in_range(&Numeral::scan(rest)),
        None => is_unsigned_in_range(&Numeral::scan(bytes)),
    }
}

/// Returns whether the token is the JSON null.
pub(crate) fn is_null_token(token: &Token<'_>) -> bool
    ensures { result ≡ is_null_token (token_of token.now) }
{
    matches!(token, Token::Null)
}

/// Passes the rest of the value that begins with a token and nests at most so deep.
#[cycle(pass)]
#[inline(always)]
fn pass_from(token: Token<'_>, reader: &mut Reader<'_>, depth: usize) -> Result<(), Invalid>
    ensures value { MatchResult result
        (λ _. pass_value depth (token_of token.entry ∷ reader.old) ≡ Some reader.new)
        (λ _. pass_value depth (token_of token.entry ∷ reader.old) ≡ None) }
    ensures shorter { OnOk result (length reader.new ≤ length reader.old) }
{
    match token {
        Token::String(_) | Token::Bool(_) | Token::Null => Ok(()),
        Token::Number(digits) => if is_in_range(digits) {
            Ok(())
        } else {
            Err(Invalid)
        },
        Token::BeginArray => if depth == 0 {
            Err(Invalid)
        } else {
            pass_items(reader, depth - 1)
        },
        Token::BeginObject => if depth == 0 {
            Err(Invalid)
        } else {
            pass_members(reader, depth - 1)
        },
        Token::EndObject | Token::EndArray | Token::Key(_) | Token::Bad => Err(Invalid),
    }
}

/// Passes a value that nests at most so deep.
#[cycle(pass)]
#[inline(always)]
fn pass_value(reader: &mut Reader<'_>, depth: usize) -> Result<(), Invalid>
    ensures value { MatchResult result (λ _. pass_value depth reader.old ≡ Some reader.new)
        (λ _. pass_value depth reader.old ≡ None) }
    ensures shorter { OnOk result (length reader.new < length reader.old) }
{
    let token = reader.next().ok_or(Invalid)?;
    pass_from(token, reader, depth)
}

/// Passes items that nest at most so deep, and the bracket after them.
#[cycle(pass)]
#[inline(never)]
fn pass_items(reader: &mut Reader<'_>, depth: usize) -> Result<(), Invalid>
    ensures value { MatchResult result (λ _. pass_items depth reader.old ≡ Some reader.new)
        (λ _. pass_items depth reader.old ≡ None) }
    ensures shorter { OnOk result (length reader.new < length reader.old) }
{
    while !reader.take_end_array() {
        pass_value(reader, depth)?;
    }
    Ok(())
}

/// Passes members that nest at most so deep, and the bracket after them.
#[cycle(pass)]
#[inline(never)]
fn pass_members(reader: &mut Reader<'_>, depth: usize) -> Result<(), Invalid>
    ensures value { MatchResult result (λ _. pass_members depth reader.old ≡ Some reader.new)
        (λ _. pass_members depth reader.old ≡ None) }
    ensures shorter { OnOk result (length reader.new < length reader.old) }
{
    while let Some(_) = reader.next_key()? {
        pass_value(reader, depth)?;
    }
    Ok(())
}

/// Returns whether the text is one value that nests at most so deep, of which this is the first token.
pub(crate) fn is_one_value(token: Token<'_>, reader: &mut Reader<'_>, depth: usize) -> bool
    ensures { IsTrue result ↔ (pass_value depth (token_of token.entry ∷ reader.old) ≡ Some []) }
{
    pass_from(token, reader, depth).is_ok() && reader.next().is_none()
}
