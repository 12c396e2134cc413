//! The rules that only an engine can check.

ghost use Rattle.std.specs.Prelude.{Some};

use odb_doc::{Fault, Place, Refusal};
use thiserror::Error;

/// A rule of a line of a log, or of the end of recorded events.
#[derive(Clone, Copy, Debug, PartialEq, Eq, Error)]
pub enum EngineRule {
    /// F07: the line of a task over two documents is not an array of two elements.
    #[error("the line is not an array of two documents")]
    NotPair,
    /// F66: no event is refused, but the run is unfinished after the last.
    #[error("the run is not finished")]
    Unfinished,
}

impl Fault for EngineRule {
    ghost use Rattle.odb_engine.specs.Rules.{rule_row};

    ghost row = { λ rule. Some (rule_row rule) };

    fn refusal(&self) -> Option<Refusal> {
        match self {
            EngineRule::NotPair => Some(Refusal::new(("F07", "NotPair"), Place::Batch)),
            EngineRule::Unfinished => Some(Refusal::new(("F66", "Unfinished"), Place::Events)),
        }
    }
}
