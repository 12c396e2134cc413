//! Runs of an OData JSON batch: which request may start, and what each is answered in the end.
//!
//! A [`Scheduler`] drives one run of a plan (OData JSON Format 4.01, sections 19.1 and 19.4; OData
//! Protocol 4.01, section 11.7). A caller reports which requests it started and what came of them, and
//! an event that may not come is refused. A scheduler calls no service, and allows every order that
//! keeps the dependencies. [`run`] takes a whole list of events, which [`resolve`] makes of recorded ones.
//! An [`Order`] decides the next step ([`Scheduler::next_in`]). A finished run is [`Done`] and has the
//! answers (section 19.5). What holds of every run is in [`laws`].
#![tactic(auto)]

mod answer;
mod counts;
mod done;
mod event;
mod graph;
mod lanes;
pub mod laws;
mod openings;
mod order;
mod owned;
mod phase;
mod policy;
mod refusal;
mod report;
mod results;
mod scheduler;
mod starts;
mod states;

pub use answer::Answer;
pub use done::Done;
pub use event::{Event, ResolveFault, ResolveRule, Step, resolve, resolve_with, run};
pub use order::Order;
pub use owned::OwnedRun;
pub use policy::{MAX_WIDTH, Mode, Policy};
pub use refusal::{ReportRefusal, RunRefusal, StartRefusal};
pub use scheduler::Scheduler;
pub use states::RequestState;
