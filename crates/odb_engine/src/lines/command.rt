//! A command over the bytes of one line.

use crate::ending::{Ended, EngineFault};
use odb_io::Output;
use std::alloc::Global;
use std::io::Write;

/// A command over the bytes of one line.
///
/// [`crate::answer_lines`] runs it on each line of an input.
pub trait LineCommand {
    ghost use Rattle.std.specs.Prelude.{◌≡◌, ℕ, List, false, Err};
    ghost use Rattle.odb_engine.specs.declared.ending.Ended.{Ended};
    ghost use Rattle.odb_engine.specs.declared.ending.EngineFault.TheVariants as faults;
    ghost use Rattle.odb_engine.specs.Engines.{Ends};

    /// How it ends for the line of this number with these bytes, and what it has written then.
    ghost writes: { Self → ℕ → List ℕ → Ended → List ℕ → Type 0 };

    /// Writes what the command writes of a line, and returns how it ended. Lines are counted from 1.
    ///
    /// # Errors
    ///
    /// - `Write` if and only if the output failed; it has received a prefix of what is written.
    /// - `OutOfMemory` if an allocation fails; nothing was written.
    fn answer<W: Write>(
        &self,
        alloc: Global,
        number: usize,
        line: &[u8],
        output: &mut Output<W>,
    ) -> Result<Ended, EngineFault>
        requires { output.old.failed ≡ false }
        ensures ends { Ends W.contents (writes self.now number line.now) ⊥ output.old output.new result }
        ensures memory { result ≡ Err faults.OutOfMemory → output.new ≡ output.old };
}
