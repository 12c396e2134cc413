//! What is true of every list of calls on a live run.

ghost use Rattle.std.specs.Prelude.{◌≡◌, ◌≤◌, ◌++◌, ℕ, List, Option, Contains, false, length};
ghost use Rattle.std.specs.List.{filter};
ghost use Rattle.odb_doc.specs.Documents.{most_bytes};
ghost use Rattle.odb_sched.specs.declared.policy.Mode.{Mode};
ghost use Rattle.odb_sched.specs.declared.policy.Policy.{Policy};
ghost use Rattle.odb_sched.specs.run.Steps.{is_finished};
ghost use Rattle.odb_reply.specs.declared.strictness.Strictness.{Strictness};
ghost use Rattle.odb_reply.specs.declared.strictness.Strictness.TheVariants.{Units};
ghost use Rattle.odb_engine.specs.declared.ending.Ended.TheVariants.{Done};
ghost use Rattle.odb_engine.specs.declared.form.Form.{Form};
ghost use Rattle.odb_engine.specs.declared.form.Form.TheVariants.{Lines};
ghost use Rattle.odb_engine.specs.declared.tasks.task.Task.TheVariants as tasks;
ghost use Rattle.odb_live.specs.declared.run.parts.Part.{Part};
ghost use Rattle.odb_engine.specs.Cascade.{Accepts};
ghost use Rattle.odb_live.specs.Live.{Live, Opens};
ghost use Rattle.odb_live.specs.LiveParts.{IsIdle, IsPartIn};
ghost use Rattle.odb_engine.specs.Written.{Allows, IsDone};
ghost use Rattle.odb_calls.specs.Live.{Responds};
ghost use Rattle.odb_calls.specs.Sessions.{AreAlike, Call, IsSession, KeepsSession, is_taken};

use odb_check::laws::every_batch;
use odb_doc::laws::{every_value, one_history, one_record};
use odb_engine::laws::written::every_match;
use odb_live::laws::one_live_run;
use odb_live::laws::parts::every_part;
use odb_sched::laws::{every_live_run, every_possible_live};

/// Whatever calls are made on a live run, it keeps what is promised of every live run (`kept`), and each
/// answer has the status, the headers and the bytes of the body with which it was reported. So `match` accepts the
/// response that [`crate::live::give_response`] writes, unless it is too long, also as strict by units (`matched`).
///
/// A run that is not finished, and on which nothing is on its way, gives a part with a request, unless its first unit lacks a Location or
/// an ETag (`gives`).
///
/// Calls may be taken apart and put together (`joined`): a call of [`crate::takes::take_part`] is the starts and the reports that its
/// clause names.
///
/// The premise is what [`odb_live::open_run`] ensures of the run that it opens for the batch in one document, after the
/// recorded events in another.
pub fn every_session()
    ensures kept { (policy : Policy) (batch events : List ℕ) (first last : Live) (calls : List Call)
        → Opens policy batch events first → IsSession first calls last
        → Accepts batch (λ requests. KeepsSession policy requests events first calls last) }
    ensures matched { (policy : Policy) (strict : Option Strictness) (mode : Mode)
        (batch events text : List ℕ) (first last : Live) (calls : List Call)
        → Opens policy batch events first → IsSession first calls last
        → Responds last Lines Done text → length text ≤ most_bytes → Allows Units strict
        → IsDone (tasks.Match mode strict) batch text }
    ensures gives { (policy : Policy) (batch events : List ℕ) (first last : Live) (calls : List Call)
        (limit : ℕ) (part : Part) → Opens policy batch events first → IsSession first calls last
        → is_finished last.run ≡ false → IsIdle last → IsPartIn last batch limit part
        → (i : ℕ) × Contains part.positions.items i }
    ensures joined { (first middle last : Live) (before after : List Call) → IsSession first before middle
        → IsSession middle after last → IsSession first (before ++ after) last }
{
    every_batch();
    every_live_run();
    every_possible_live();
    every_value();
    one_history();
    every_match();
    every_part();
}

/// Two sessions on runs that were opened for the same documents under the same policy end alike if the calls that are taken
/// are the same, in order, whatever other calls come between them: in equal runs (`alike`), and with the same response
/// (`text`).
pub fn one_session()
    ensures alike { (policy : Policy) (batch events : List ℕ) (first other last final : Live)
        (calls others : List Call)
        → Opens policy batch events first → Opens policy batch events other
        → IsSession first calls last → IsSession other others final
        → filter is_taken calls ≡ filter is_taken others → AreAlike last final }
    ensures text { (live other : Live) (form : Form) (text different : List ℕ)
        → AreAlike live other → Responds live form Done text → Responds other form Done different
        → text ≡ different }
{
    one_live_run();
    one_record();
}
