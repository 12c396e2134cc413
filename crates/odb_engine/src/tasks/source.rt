//! What a document comes from: a reader, bytes in memory, or a value in hand.

ghost use Rattle.std.specs.Prelude.{◌≡◌, ◌≢◌, IfErr, IfOk, IfSome, None, true};
ghost use Rattle.serde_json.specs.Data.{Data};
ghost use Rattle.odb_doc.specs.Documents.{IsJson};

use crate::halt::Halt;
use crate::input::{read_document, value_or_error};
use odb_doc::Place;
use odb_io::Input;
use odb_spans::ParseError;
use serde_json::Value;
use std::alloc::Global;
use std::io::Read;
use std::mem::replace;

/// What is kept of a document that is read, if that is asked.
#[derive(Drop)]
pub struct Kept {
    /// Whether it is asked.
    asked: bool,
    /// Its bytes, unless they are in memory already.
    bytes: Vec<u8>,
    /// Where the parser stopped in it, if it is not JSON.
    pub(crate) error: Option<ParseError>,
}

impl Kept {
    /// Returns what is kept before a document is read: nothing.
    pub fn new(alloc: Global, asked: bool) -> Self
        ensures asked { result.asked ≡ asked }
        ensures error { result.error ≡ None }
    {
        Kept {
            asked,
            bytes: Vec::new(alloc),
            error: None,
        }
    }

    /// Keeps a document that was read, if that is asked.
    fn keep(&mut self, bytes: Vec<u8>, error: Option<ParseError>)
        requires none { self.old.error ≡ None }
        requires error { IfSome error (λ _. (d : Data) → ¬ IsJson bytes.items d) }
        ensures bytes { self.old.asked ≡ true → self.new.bytes.items ≡ bytes.items }
        ensures error { IfSome self.new.error (λ _. (d : Data) → ¬ IsJson self.new.bytes.items d) }
    {
        if self.asked {
            self.bytes = bytes;
            self.error = error;
        }
    }
}

/// What a document comes from. It is read once.
pub trait Source {
    ghost use Rattle.std.specs.Prelude.{◌≡◌, ◌↔◌, ℕ, List, IfOk, IfErr, IfSome, Err, None, true};
    ghost use Rattle.serde_json.specs.Data.{Data};
    ghost use Rattle.serde_json.specs.View.{view};
    ghost use Rattle.odb_doc.specs.Documents.{IsJson};
    ghost use Rattle.odb_engine.specs.declared.halt.Halt.TheVariants as halts;
    ghost use Rattle.odb_engine.specs.Contents.{Content, Given, IfRead, IsBytesOf, IsValueOf, RefusesContent, SomeContent};
    ghost use Rattle.odb_engine.specs.Halts.{Halted};

    /// What it gives.
    ghost given: { Self → Given };

    /// That it works, and was not read yet.
    ghost is_fresh: { Self → Type 0 };

    /// That a read of it failed.
    ghost has_failed: { Self → Type 0 };

    /// That it was read from the first to the second, to the end of this document.
    ghost was_read: { Self → Self → Content → Type 0 };

    /// That no more was taken of it than a document may need.
    ghost reads_few: { Self → Self → Type 0 };

    /// That it has the bytes of its document, and not its value alone.
    ghost has_bytes: { Self → Type 0 };

    /// The bytes of its document, by those that are kept of it.
    ghost bytes_of: { Self → List ℕ → List ℕ };

    /// Returns the value of its document; `place` is the place of the fault of the document. It keeps the bytes, if they are
    /// asked for.
    ///
    /// # Errors
    ///
    /// `Read` if and only if a read failed; `Refused` if the bytes are too long or not JSON;
    /// `OutOfMemory` if an allocation fails.
    fn read(&mut self, alloc: Global, place: Place, kept: &mut Kept) -> Result<Value, Halt>
        requires fresh { is_fresh self.old }
        requires kept { kept.old.error ≡ None }
        ensures value { SomeContent (given self.old) (λ content.
            (IfOk result (λ value. IsValueOf content (view value) × was_read self.old self.new content)
            × IfErr result (Halted (RefusesContent place content)))
            × (has_bytes self.old → kept.old.asked ≡ true
            → IfRead (IsBytesOf content (bytes_of self.new kept.new.bytes.items)) result)) }
        ensures error { IfSome kept.new.error (λ _. (d : Data)
            → ¬ IsJson (bytes_of self.new kept.new.bytes.items) d) }
        ensures read { (result ≡ Err halts.Read) ↔ has_failed self.new }
        ensures few { reads_few self.old self.new };

    ghost unread: { (source : Self) → is_fresh source → reads_few source source };

    ghost works: { (source : Self) → is_fresh source → ¬ has_failed source };
}

/// A source that has the bytes of its document: a reader or bytes in memory.
pub trait Document: Source {
    ghost use Rattle.std.specs.Prelude.{◌≡◌};

    /// Returns the bytes of its document: those that were kept, or those in memory.
    fn bytes<'k>(&'k self, kept: &'k Kept) -> &'k [u8]
        ensures { result.now ≡ Self.bytes_of self.now kept.now.bytes.items };

    ghost has: { (source : Self) → Self.Source.has_bytes source };
}

/// The document that a reader gives.
impl<R: Read> Source for Input<R> {
    ghost use Rattle.std.proofs.Common.{rules};
    ghost use Rattle.std.specs.Prelude.{IsTrue};
    ghost use Rattle.odb_engine.specs.Contents.{WasReadAs};
    ghost use Rattle.odb_engine.specs.Contents.Given.{ByReader};
    ghost use Rattle.odb_engine.specs.Inputs.{IsFresh, ReadsFew};

    ghost given = { λ input. ByReader (R.remaining input.reader) };

    ghost is_fresh = { IsFresh };

    ghost has_failed = { λ input. IsTrue input.failed };

    ghost was_read = { WasReadAs R.remaining };

    ghost reads_few = { ReadsFew R.remaining };

    ghost has_bytes = { λ _. Unit {0} };

    ghost bytes_of = { λ _ kept. kept };

    fn read(&mut self, alloc: Global, place: Place, kept: &mut Kept) -> Result<Value, Halt> {
        let bytes = read_document(alloc, self)?;
        let mut error = None;
        let found = value_or_error(alloc, &bytes, place, &mut error);
        kept.keep(bytes, error);
        found
    }

    ghost unread = { Prim.search rules };

    ghost works = { Prim.search rules };
}

impl<R: Read> Document for Input<R> {
    ghost has = { λ _. tt };

    fn bytes<'k>(&'k self, kept: &'k Kept) -> &'k [u8] {
        &kept.bytes
    }
}

/// A document in memory, whose bytes are not copied.
#[derive(Clone, Copy)]
pub struct Slice<'b> {
    pub bytes: &'b [u8],
}

impl<'b> Source for Slice<'b> {
    ghost use Rattle.std.specs.Prelude.{refl};
    ghost use Rattle.odb_engine.specs.Contents.Given.{InMemory};

    ghost given = { λ slice. InMemory slice.bytes.now };

    ghost is_fresh = { λ _. Unit {0} };

    ghost has_failed = { λ _. ⊥ };

    ghost was_read = { λ _ _ _. Unit {0} };

    ghost reads_few = { λ old new. new.bytes.now ≡ old.bytes.now };

    ghost has_bytes = { λ _. Unit {0} };

    ghost bytes_of = { λ slice _. slice.bytes.now };

    fn read(&mut self, alloc: Global, place: Place, kept: &mut Kept) -> Result<Value, Halt> {
        value_or_error(alloc, self.bytes, place, &mut kept.error)
    }

    ghost unread = { λ _ _. refl };

    ghost works = { λ _ _ failed. failed };
}

impl<'b> Document for Slice<'b> {
    ghost has = { λ _. tt };

    fn bytes<'k>(&'k self, _kept: &'k Kept) -> &'k [u8] {
        self.bytes
    }
}

/// This value, which is taken: `null` is left.
impl Source for Value {
    ghost use Rattle.serde_json.specs.View.{view};
    ghost use Rattle.odb_engine.specs.Contents.Given.{InHand};

    ghost given = { λ value. InHand (view value) };

    ghost is_fresh = { λ _. Unit {0} };

    ghost has_failed = { λ _. ⊥ };

    ghost was_read = { λ _ _ _. Unit {0} };

    ghost reads_few = { λ _ _. Unit {0} };

    ghost has_bytes = { λ _. ⊥ };

    ghost bytes_of = { λ _ kept. kept };

    fn read(&mut self, _alloc: Global, _place: Place, _kept: &mut Kept) -> Result<Value, Halt> {
        Ok(replace(self, Value::Null))
    }

    ghost unread = { λ _ _. tt };

    ghost works = { λ _ _ failed. failed };
}
