//! Sets and worklists over the numbers below a bound, and rows of values.
//!
//! Only `new`, [`none_for_each`] and the calls that make or lengthen [`Rows`] allocate. `least` and `greatest` look at one
//! word for each 4,096 numbers of the bound and at one word more, whatever the set holds, and the other calls take
//! constant time: `as_slice` and `row` borrow what is there.
#![tactic(auto)]

mod absent;
mod bit_set;
mod bits;
mod min_max_set;
mod rows;
mod sparse_set;
mod worklist;

pub use absent::none_for_each;
pub use bit_set::BitSet;
pub use min_max_set::MinMaxSet;
pub use rows::Rows;
pub use worklist::{Mark, Worklist};
