//! What is true of every execution of a plan (OData JSON Format 4.01, section 19.4; OData Protocol
//! 4.01, section 11.7).
//!
//! The laws are clauses of functions that change nothing. They are stated by the relations that the
//! clauses of [`crate::execute`] use.

ghost use Rattle.std.specs.Prelude.{◌≡◌, ◌++◌, List, false, map, Option};
ghost use Rattle.odb_doc.specs.declared.recorded.outcome.Outcome.{Outcome};
ghost use Rattle.odb_doc.specs.batch.Records.{Record};
ghost use Rattle.odb_sched.specs.declared.event.Event.{Event};
ghost use Rattle.odb_sched.specs.declared.order.Order.{Order};
ghost use Rattle.odb_sched.specs.declared.policy.Policy.{Policy};
ghost use Rattle.odb_sched.specs.run.Runs.{after_all};
ghost use Rattle.odb_sched.specs.run.State.{State, first_state};
ghost use Rattle.odb_sched.specs.run.Steps.{places};
ghost use Rattle.odb_exec.specs.Courses.{step_of};
ghost use Rattle.odb_exec.specs.Calls.{AsksAll, Call, calls_of, reported_by, Writes};
ghost use Rattle.odb_exec.specs.Recordings.{HasOneCourse, HasOneFault, FaultsOrFinishes};

use crate::service::Service;

/// What a service's own log has of an execution. If each answered call adds one entry, the log has one
/// new entry for each report, in the order of the reports, and each call is for the request that is
/// reported. So a service is asked once for each report, and for nothing else.
pub fn every_call<S: Service, X>()
    ensures logged { (log : S → List X) (entry : Call → X)
        → Writes S.performs log entry
        → (requests : List Record) (events : List Event) (old new : S)
        → AsksAll S.performs requests events old new
        → log new ≡ log old ++ map entry (calls_of requests events) }
    ensures positions { (requests : List Record) (events : List Event) (old new : S)
        → AsksAll S.performs requests events old new
        → map (λ call. call.0) (calls_of requests events) ≡ reported_by (map step_of events) }
{}

/// Where each event is the start or the report of one request, as in an execution and in a run by recorded events, as many
/// may run at once as the width says (`width`), and nobody but an error stops the run (`unclosed`). So a start may come by
/// the phases of the requests, the mode and the width alone.
pub fn one_by_one()
    ensures width { (requests : List Record) (policy : Policy) (events : List Event)
        → places (after_all (first_state requests policy) events) ≡ policy.width }
    ensures unclosed { (requests : List Record) (policy : Policy) (events : List Event)
        → (after_all (first_state requests policy) events).closed ≡ false }
{}

/// In an order, as that of `First`, `Last` or `Wide`, and with recorded outcomes, an execution has one
/// course from each state, so from the first of a plan and a policy: any two that finish have the same
/// steps and the same answers, any two that do not have the same fault, and none has a fault where
/// another finishes.
pub fn every_order()
    ensures one_course { (order : Order) (outcomes : List (Option Outcome)) (first : State)
        → HasOneCourse order outcomes first }
    ensures one_fault { (order : Order) (outcomes : List (Option Outcome)) (first : State)
        → HasOneFault order outcomes first }
    ensures fault_or_end { (order : Order) (outcomes : List (Option Outcome)) (first : State)
        → FaultsOrFinishes order outcomes first }
{}
