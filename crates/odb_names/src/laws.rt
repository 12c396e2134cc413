//! What a text determines: it has one front, names one method, and has one longest run.
//!
//! The laws are clauses of a function that does nothing. They use the relations that the clauses of
//! this crate use, and serve callers that compare two readings of one text.

ghost use Rattle.std.specs.Prelude.{◌≡◌, ℕ, Bool, List};
ghost use Rattle.odb_names.specs.Fronts.{FrontForm, HasFront};
ghost use Rattle.odb_names.specs.Methods.{Names};
ghost use Rattle.odb_names.specs.Runs.{SplitsRun};
ghost use Rattle.odb_names.specs.declared.method.Method.{Method};

/// A URL has one front, and a text names one method at most (OData JSON Format 4.01, section 19.1,
/// `url` and `method`). A text is split in one way after its longest run of characters that pass a
/// test.
pub fn one_reading()
    ensures front { (url : List ℕ) (front other : FrontForm) → HasFront url front
        → HasFront url other → front ≡ other }
    ensures method { (text : List ℕ) (method other : Method) → Names text method
        → Names text other → method ≡ other }
    ensures run { (test : ℕ → Bool) (text run rest other left : List ℕ) → SplitsRun test text run rest
        → SplitsRun test text other left → (run ≡ other) × (rest ≡ left) }
{}
