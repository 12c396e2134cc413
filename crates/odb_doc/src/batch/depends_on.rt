//! The names in `dependsOn`, each once.

ghost use Rattle.std.specs.Prelude.{◌≡◌, IfOk, option_map};
ghost use Rattle.serde_json.specs.Data.{Data};
ghost use Rattle.serde_json.specs.View.{items_view};
ghost use Rattle.odb_doc.specs.batch.MembersFound.{AreMembersOf, data_of};
ghost use Rattle.odb_doc.specs.Names.{distinct, texts_in};
ghost use Rattle.odb_doc.specs.batch.Shapes.{texts_of, texts_or_none, listed_names};

use crate::batch::members::Members;
use crate::repeats::{Names, without_repeats};
use serde_json::Value;
use smallvec::SmallVec;
use std::alloc::{AllocError, Global};

/// Returns the strings of an array; `None` if an element is not a string.
#[inline(always)]
fn all_texts<'a>(alloc: Global, elements: &'a [Value]) -> Result<Option<Names<'a>>, AllocError>
    ensures { IfOk result (λ found. option_map (λ texts. texts_in texts.items) found
        ≡ texts_of (items_view elements.now)) }
{
    let mut texts = SmallVec::with_capacity(alloc, elements.len())?;
    for element in elements {
        let Some(text) = element.as_str() else {
            return Ok(None);
        };
        texts.push(text)?;
    }
    Ok(Some(texts))
}

/// Returns the strings in `dependsOn`; `None` if it is not an array of strings.
#[inline(always)]
pub(crate) fn listed_names<'a>(
    alloc: Global,
    member: Option<&'a Value>,
) -> Result<Option<Names<'a>>, AllocError>
    ensures { IfOk result (λ found. option_map (λ names. texts_in names.items) found
        ≡ texts_or_none (data_of member.entry)) }
{
    match member {
        None | Some(Value::Null) => Ok(Some(SmallVec::new(alloc))),
        Some(Value::Array(elements)) => all_texts(alloc, elements.as_slice()),
        Some(_) => Ok(None),
    }
}

/// Returns the names in `dependsOn` without repeats, each at its first place; `None` if it is not an array
/// of strings.
pub(crate) fn read_names<'a>(
    alloc: Global,
    members: &Members<'a>,
) -> Result<Option<Names<'a>>, AllocError>
    ensures { IfOk result (λ found. (d : Data) → AreMembersOf d members.now
        → option_map (λ names. texts_in names.items) found ≡ option_map distinct (listed_names d)) }
{
    match listed_names(alloc, members.depends_on)? {
        Some(names) => Ok(Some(without_repeats(alloc, names)?)),
        None => Ok(None),
    }
}
