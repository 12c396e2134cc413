//! What is reported of a fault: a code, a name and a place.

ghost use Rattle.std.specs.Prelude.{◌≡◌, Option, None, option_map, IsSome, IfSome};
ghost use Rattle.odb_doc.specs.Refusals.{Printed, printed};

use crate::fault::Place;
use std::alloc::AllocError;

/// What is printed of a fault.
#[derive(Clone, Copy, Debug, PartialEq, Eq)]
pub struct Refusal {
    /// The code, as `F13`.
    pub code: &'static str,
    /// The name, as `BadId`.
    pub name: &'static str,
    /// Where the fault is.
    pub place: Place,
}

impl Refusal {
    /// Returns what is printed of a fault with this code and name, at this place.
    pub fn new(row: (&'static str, &'static str), place: Place) -> Refusal
        ensures { printed result
            ≡ record { code = row.entry.0.now; name = row.entry.1.now; place = place } }
    {
        Refusal {
            code: row.0,
            name: row.1,
            place,
        }
    }
}

/// Why something is refused, or could not be done.
pub trait Fault {
    ghost use Rattle.std.specs.Prelude.{◌≡◌, Option, option_map, IsSome, IfSome};
    ghost use Rattle.odb_doc.specs.Refusals.{Printed, printed};

    /// What is printed of the fault; `None` if an allocation, a read or a write failed.
    ghost row: { Self → Option Printed };

    /// Returns what is printed of the fault, or `None` if an allocation, a read or a write failed.
    fn refusal(&self) -> Option<Refusal>
        ensures { option_map printed result ≡ row self.now };

    /// Returns the code of a numbered fault, as `F13`.
    final fn code(&self) -> &'static str
        requires { IsSome (row self.now) }
        ensures { IfSome (row self.now) (λ it. result.now ≡ it.code) }
    {
        self.refusal().unwrap().code
    }

    /// Returns the name of a numbered fault, as `BadId`.
    final fn name(&self) -> &'static str
        requires { IsSome (row self.now) }
        ensures { IfSome (row self.now) (λ it. result.now ≡ it.name) }
    {
        self.refusal().unwrap().name
    }

    /// Returns where a numbered fault is.
    final fn place(&self) -> Place
        requires { IsSome (row self.now) }
        ensures { IfSome (row self.now) (λ it. result ≡ it.place) }
    {
        self.refusal().unwrap().place
    }
}

impl Fault for AllocError {
    ghost row = { λ _. None };

    fn refusal(&self) -> Option<Refusal> {
        None
    }
}
