//! OData JSON batch documents: from bytes to the requests of a batch.
//!
//! A batch comes as a JSON document (OData JSON Format 4.01, section 19.1). [`parse`] makes a value
//! of its bytes, and [`Batch::read`] makes the batch of that value, or returns the first fault of its
//! shape; [`shape_faults`] returns all of them. The crates above decide whether the names in the
//! requests fit together.
//! [`Batch::canonical`] returns the one text of all documents that make the same batch.
//! [`Outcomes::read`] makes recorded outcomes of the value of a document of their own, and
//! [`Outcomes::split`] returns what remains of it too; an [`Outcome`] is what a service answered.
//! [`Events::read`] and [`Events::split`] do so for recorded events. [`is_whole`] returns whether a
//! value can be written. [`status`] says what a status means, and [`text`] appends pieces of JSON text.
#![tactic(auto)]

mod batch;
mod broken;
mod canonical;
mod disposal;
mod document;
mod fault;
mod headers;
pub mod laws;
mod member;
mod recorded;
mod refusal;
mod repeats;
mod rule_fault;
pub mod status;
pub mod text;
mod whole;

pub use batch::Batch;
pub use batch::all_faults::shape_faults;
pub use batch::folded::{Header, Headers};
pub use batch::request::Request;
pub use disposal::Disposal;
pub use document::{MAX_DOCUMENT_BYTES, parse};
pub use fault::{DocFault, DocumentRule, Place, RequestRule, TextFault};
pub use member::{array_at, text_at};
pub use recorded::event::NamedEvent;
pub use recorded::event_fault::{EventFault, EventRule};
pub use recorded::events::Events;
pub use recorded::outcome::Outcome;
pub use recorded::outcome_fault::{OutcomeFault, OutcomeRule};
pub use recorded::outcomes::{Husk, Outcomes};
pub use refusal::{Fault, Refusal};
pub use rule_fault::{Rule, RuleFault};
pub use whole::{has_whole_body, is_whole};
