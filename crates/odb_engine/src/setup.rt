//! What a command is given beside its documents: the form of what it writes, how faults are printed, the seed of tables,
//! and what happens to what was read.

ghost use Rattle.std.specs.Prelude.{◌≡◌, None, false};
ghost use Rattle.odb_doc.specs.declared.disposal.Disposal.TheVariants.{Drop};
ghost use Rattle.odb_engine.specs.declared.form.Form.TheVariants.{Lines};

use crate::form::Form;
use odb_check::Seed;
use odb_doc::Disposal;

/// How the faults of a refused document are printed.
#[derive(Clone, Copy, Debug, PartialEq, Eq)]
pub struct Faults {
    /// Each begins with the number of its line in the log; as JSON, that is a member `line` beside `fault` or `faults`.
    pub numbered: bool,
    /// Each is printed with where it is: after `NAME:LINE:COLUMN: `, or as the members `line`, `column` and `offset` of
    /// its JSON.
    pub located: bool,
}

impl Faults {
    /// As they are.
    pub const PLAIN: Faults = Faults {
        numbered: false,
        located: false,
    };
}

/// What an engine takes beside its documents, its output and the options of its command.
///
/// What is written does not depend on the seed, nor on what happens to the documents.
#[derive(Clone, Copy, Drop)]
pub struct Setup {
    /// The form of the result, and of the fault of a refused document.
    pub form: Form,
    /// How the faults of a refused document are printed. The number of a line is that of [`crate::answer_line`].
    pub faults: Faults,
    /// The seed of the tables of names. If it is drawn at random and kept secret, look-ups are fast
    /// whatever the names.
    pub seed: Seed,
    /// Whether the documents are dropped at the end.
    pub disposal: Disposal,
}

impl Setup {
    /// Returns the setup with this form and this seed, by which faults are printed as they are, and the documents are
    /// dropped.
    pub fn new(form: Form, seed: Seed) -> Setup
        ensures form { result.form ≡ form }
        ensures numbered { result.faults.numbered ≡ false }
        ensures located { result.faults.located ≡ false }
        ensures seed { result.seed ≡ seed }
        ensures disposal { result.disposal ≡ Drop }
    {
        Setup {
            form,
            faults: Faults::PLAIN,
            seed,
            disposal: Disposal::Drop,
        }
    }

    /// Returns the setup of an engine that takes none: lines of words, faults as they are, no seed, and the documents
    /// are dropped.
    pub fn plain() -> Setup
        ensures form { result.form ≡ Lines }
        ensures numbered { result.faults.numbered ≡ false }
        ensures located { result.faults.located ≡ false }
        ensures seed { result.seed.number ≡ None }
        ensures disposal { result.disposal ≡ Drop }
    {
        Setup::new(Form::Lines, Seed::none())
    }
}
