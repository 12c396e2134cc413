//! The headers of a request, lent from its document, by their names in lower case.

ghost use Rattle.std.specs.Prelude.{◌==◌, ◌≡◌, false, IfOk, IsOkAnd, length, option_map, bytes_eq};
ghost use Rattle.std.specs.Char.{is_ascii_uppercase};
ghost use Rattle.std.specs.Cow.{IsBorrowedStr, cow_str_bytes};
ghost use Rattle.std.specs.List.{list_any};
ghost use Rattle.std.specs.Map.{lookup};
ghost use Rattle.std.specs.Slice.Iter.{iter_rest};
ghost use Rattle.std.specs.Str.{str_to_ascii_lowercase};
ghost use Rattle.odb_doc.specs.Headers.{lent_header, lent_headers};

use crate::batch::media_type::has_uppercase;
use crate::headers::lowercase;
use std::alloc::{AllocError, Global};
use std::borrow::CowStr;
use std::slice;

/// A header of a request: a name, whose case means nothing (RFC 9110, section 5.1), and a value.
#[derive(Clone, Copy, Debug, Drop)]
pub struct Header<'a> {
    /// The name as the document has it.
    pub(crate) written: &'a str,
    /// The value.
    pub value: &'a str,
}

/// The headers of a request, in byte order of their names in lower case, of which no two are equal.
#[derive(Debug, Drop)]
pub struct Headers<'a> {
    pub(crate) entries: Vec<Header<'a>>,
}

impl<'a> Header<'a> {
    /// Returns the name in lower case. It is copied only if the document has a letter of it in upper case.
    ///
    /// # Errors
    ///
    /// If memory for the copy cannot be allocated.
    pub fn name(&self, alloc: Global) -> Result<CowStr<'a, Global>, AllocError>
        ensures name { IfOk result (λ name. cow_str_bytes name ≡ (lent_header self.now).0) }
        ensures lent { list_any is_ascii_uppercase self.now.written.now ≡ false
            → IsOkAnd result IsBorrowedStr }
    {
        if !has_uppercase(self.written.as_bytes()) {
            return Ok(CowStr::Borrowed(self.written));
        }
        let name = String::from_str(alloc, self.written)?;
        Ok(CowStr::Owned(lowercase(name)))
    }

    /// Returns whether this is the name of the header, in any case of its letters.
    pub fn is_named(&self, name: &str) -> bool
        ensures { result ≡ bytes_eq (str_to_ascii_lowercase name.now) (lent_header self.now).0 }
    {
        self.written.eq_ignore_ascii_case(name)
    }
}

impl<'a> Headers<'a> {
    /// Returns how many headers there are.
    pub fn len(&self) -> usize
        ensures { result ≡ length (lent_headers self.now) }
    {
        self.entries.len()
    }

    /// Returns whether there are no headers.
    pub fn is_empty(&self) -> bool
        ensures { result ≡ (length (lent_headers self.now) == 0) }
    {
        self.entries.is_empty()
    }

    /// Returns the headers in order.
    pub fn as_slice(&self) -> &[Header<'a>]
        ensures { result.now ≡ self.now.entries.items }
    {
        self.entries.as_slice()
    }

    /// Returns an iterator over the headers in order.
    pub fn iter(&self) -> slice::Iter<'_, Header<'a>>
        ensures { iter_rest result ≡ self.now.entries.items }
    {
        self.entries.iter()
    }

    /// Returns the value of the header with this name, in any case of its letters, if there is one.
    pub fn get(&self, name: &str) -> Option<&'a str>
        ensures { option_map (λ value. value.now) result
            ≡ lookup (bytes_eq (str_to_ascii_lowercase name.now)) (lent_headers self.now) }
    {
        for header in self.entries.as_slice() {
            if header.is_named(name) {
                return Some(header.value);
            }
        }
        None
    }
}
