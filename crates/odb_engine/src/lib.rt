//! The commands as a library: one engine for all, over readers, bytes in memory or values in hand.
//!
//! A [`Task`] is a command with its options, and [`answer_documents`] does it: it takes the batch from one reader, and
//! a second document from another if the task takes one, writes its result or the first fault, and returns how
//! it ended. A [`Setup`] has the [`Form`] of what is written, lines of words or JSON, how [`Faults`] are printed, the seed
//! of the tables of names, and whether what was read is dropped. [`check_batch`], [`plan_batch`], [`canon_batch`],
//! [`match_batch`], [`replay_batch`] and [`run_batch`] are the tasks over readers, without a setup. A contract
//! states what the writer has received, whatever the readers and the writer do: the whole text, or after a
//! fault nothing or a prefix of it. [`laws`] states that a text is determined. Opening files, buffering small
//! writes and turning an end into an exit status are left to the caller.
//!
//! What the tasks share is in a few modules. `source` reads a document, `command` goes from the sources to the text
//! of a [`Command`], `ending` writes that text, or the fault by which it halted, and `located` writes a fault with where it
//! is. Another command is a relation in specs/, a variant of [`Task`], and a function in a file of its own that
//! returns its text. [`answer_in_memory`] returns what a task writes of documents in memory, and [`answer_lines`]
//! does an [`EachLine`] on each line of an input.
#![tactic(auto)]

mod disposal;
mod ending;
mod form;
mod halt;
mod input;
pub mod laws;
pub mod lines;
mod rule;
mod setup;
mod tasks;

pub use disposal::DropOrLeak;
pub use ending::{Ended, EngineFault};
pub use form::Form;
pub use halt::Halt;
pub use input::{halt_at, value_in};
pub use lines::{EachLine, LineCommand, LineInput, answer_lines};
pub use odb_doc::Disposal;
pub use rule::EngineRule;
pub use setup::{Faults, Setup};
pub use tasks::{
    Answer, Command, Document, Kept, Names, Slice, Source, Task, answer_documents,
    answer_in_memory, answer_line, canon_batch, check_batch, faults_in, match_batch, plan_batch,
    replay_batch, run_batch, table_of,
};
