//! Where the bodies and the elements of a batch lie in its document.
//!
//! A value that [`odb_doc::parse`] made has lost how the client wrote it: `9.990`, 23 digits, blanks. A
//! gateway has to send each body as it was written, and so does a service that stores it.
//! [`bodies_in`] returns for each request the [`Span`] of its body, by one scan of the document, and [`members_in`] that of
//! another member of each element of an array, as of the body of each response. That each has one place is in [`laws`].
//!
//! A fault names an element by its [`Place`](odb_doc::Place). [`position_of`] returns the [`Position`] at
//! which the element begins, with its line and column and where it ends, [`positions_of`] those of many faults, and
//! [`position_in_pair`] returns it for a line that holds two documents, which [`documents_in`] finds. What [`parse`]
//! keeps of a document that is not JSON spares [`position_by`] and the like to parse it again.
#![tactic(auto)]

mod bodies;
mod byte;
mod extent;
mod fault;
mod front;
mod given;
mod item;
pub mod laws;
mod locate;
mod member;
mod members;
mod parsing;
mod position;
mod positions;
mod span;
mod walk;

pub use bodies::bodies_in;
pub use locate::{
    documents_in, is_in_batch, position_by, position_in_pair, position_in_pair_by, position_of,
};
pub use members::members_in;
pub use parsing::{ParseError, parse};
pub use position::Position;
pub use positions::{positions_by, positions_of};
pub use span::Span;
