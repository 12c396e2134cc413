//! The command `rest`: what of a batch may be sent again by the responses of a service, as a batch of its own.

ghost use Rattle.std.specs.Prelude.{◌≢◌, Err};
ghost use Rattle.serde_json.specs.Data.{Data};
ghost use Rattle.serde_json.specs.View.{view};
ghost use Rattle.odb_check.specs.Plans.{plan_records};
ghost use Rattle.odb_check.specs.Seeds.{IsSeeded};
ghost use Rattle.odb_send.specs.Parts.{IsBatchIn};
ghost use Rattle.odb_engine.specs.declared.form.Form.{Form};
ghost use Rattle.odb_engine.specs.declared.halt.Halt.TheVariants as halts;
ghost use Rattle.odb_engine.specs.Halts.{Found};
ghost use Rattle.odb_engine.specs.Rests.{RestsValue};

use crate::disposal::DropOrLeak;
use crate::halt::Halt;
use crate::setup::Setup;
use crate::tasks::match_responses::table_of;
use odb_check::Plan;
use odb_sched::Mode;
use odb_send::{rest_of, rest_text};
use serde_json::Value;
use std::alloc::Global;

/// Returns the text of the rest of the batch in a document by the responses in a value, by whether an error stops
/// the service, and a newline. The plan was made with the seed of the setup.
pub fn left_over(
    alloc: Global,
    document: &[u8],
    plan: &Plan<'_>,
    value: Value,
    mode: Mode,
    setup: Setup,
) -> Result<String, Halt>
    requires document { (d : Data) × IsBatchIn document.now d (plan_records plan.now) }
    requires seed { IsSeeded setup.seed.number plan.now }
    ensures found { (form : Form) → Found (RestsValue mode document.now (plan_records plan.now) (view value))
        form result }
    ensures read { result ≢ Err halts.Read }
{
    let value = DropOrLeak {
        value,
        disposal: setup.disposal,
    };
    let table = table_of(alloc, plan, &value.value, mode, setup.disposal)?;
    let rest = rest_of(alloc, plan, &table, &value.value)?;
    let mut text = rest_text(alloc, document, plan, &rest)?;
    text.push_str("\n")?;
    Ok(text)
}
