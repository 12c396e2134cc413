//! Lists in which every value is still absent.

ghost use Rattle.std.specs.Prelude.{◌≡◌, replicate, None, IfOk};

use std::alloc::{AllocError, Global};

/// Returns a list that has no value yet for each of the numbers below `bound`.
///
/// # Errors
///
/// If memory for the list cannot be allocated.
pub fn none_for_each<T: Drop>(alloc: Global, bound: u32) -> Result<Vec<Option<T>>, AllocError>
    ensures { IfOk result (λ values. values.items ≡ replicate bound None) }
{
    let mut values = Vec::with_capacity(alloc, bound as usize)?;
    for _ in 0..bound {
        values.push(None)?;
    }
    Ok(values)
}
