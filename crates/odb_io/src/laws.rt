//! The limit on the reads of an input.

ghost use Rattle.std.specs.Prelude.{◌≡◌};
ghost use Rattle.odb_io.specs.declared.device.TheConstants.{MAX_READS};

/// The limit by which callers read is that of the definitions.
pub fn limits()
    ensures { MAX_READS ≡ 16777217 }
{}
