//! Tasks: what is done with a batch document, and with a second document if the task takes one.
//!
//! `command` goes from the sources to the text of a [`Command`], and `task` has the [`Task`]s. Each of the others has the
//! text of a command, or is about what is written of its faults.

mod all_faults;
pub(crate) mod answer;
mod canon;
mod check;
pub(crate) mod command;
mod documents;
mod located;
pub(crate) mod match_responses;
mod plan;
mod replay;
mod response;
mod rest;
pub(crate) mod run;
pub(crate) mod source;
pub(crate) mod task;

pub use all_faults::faults_in;
pub use answer::{Answer, answer_line};
pub use canon::canon_batch;
pub use check::check_batch;
pub use command::Command;
pub use documents::{answer_documents, answer_in_memory};
pub use located::Names;
pub use match_responses::{match_batch, table_of};
pub use plan::plan_batch;
pub use replay::replay_batch;
pub use run::run_batch;
pub use source::{Document, Kept, Slice, Source};
pub use task::Task;
