//! The results of the commands as texts: lines of words, one line of compact JSON, a trace, and the drawing of a
//! plan.
//!
//! A text is a function of what it shows, a plan, the statuses of a match, the steps of an execution or a
//! fault, and every call returns it whole, or an `AllocError`. Nothing is written here: when which text is
//! written, `odb_engine` decides. Of the texts only that of a place is read, by [`place_of`]. [`laws`] states what a
//! text as JSON is read as, that the text of a plan determines the plan, and that a label of a drawing is one string.
#![tactic(auto)]

mod drawing;
mod faults;
mod full_plan;
mod label;
pub mod laws;
mod lines;
mod place;
mod plan;
mod results;
mod rows;
mod trace;

pub use drawing::drawing_text;
pub use faults::{Located, fault_json, fault_line, fault_lines, faults_json};
pub use full_plan::full_plan_json;
pub use lines::{accepted_line, match_lines};
pub use place::place_of;
pub use plan::plan_json;
pub use results::{counts_json, match_json};
pub use trace::trace_part;
