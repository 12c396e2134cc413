//! What holds of the answers to the lines of an input.

ghost use Rattle.std.specs.Prelude.{ℕ, List};
ghost use Rattle.odb_engine.specs.Cascade.{IsOne};
ghost use Rattle.odb_engine.specs.lines.Answers.{AnswersEach, OfAnyLine};

use crate::lines::command::LineCommand;

/// Some lines have one text of answers and one end, if each line has.
pub fn one_text<C: LineCommand>(command: &C)
    requires { (number : ℕ) (bytes : List ℕ) → IsOne (C.writes command.now number bytes) }
    ensures { (lines : List (List ℕ)) → IsOne (AnswersEach (OfAnyLine (C.writes command.now)) lines) }
{}
