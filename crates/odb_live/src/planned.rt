//! From a batch document in memory to what is made of its plan.

ghost use Rattle.std.specs.Prelude.{◌≢◌, Err, IfErr, IfOk};
ghost use Rattle.odb_engine.specs.declared.halt.Halt.TheVariants as halts;
ghost use Rattle.odb_engine.specs.Halts.{Halted};
ghost use Rattle.odb_live.specs.Planned.{AcceptsAs, IsLeastOfMaking};

use odb_check::{Plan, Seed, check_with};
use odb_doc::{Batch, Place};
use odb_engine::{Halt, value_in};
use std::alloc::Global;

/// What is made of the plan of a batch that the check accepts. It borrows nothing of the document.
pub(crate) trait OfPlan {
    ghost use Rattle.std.specs.Prelude.{◌≢◌, ℕ, List, Err, IfErr, IfOk};
    ghost use Rattle.serde_json.specs.Data.{Data};
    ghost use Rattle.odb_check.specs.Plans.{plan_records};
    ghost use Rattle.odb_check.specs.Seeds.{IsSeeded};
    ghost use Rattle.odb_doc.specs.Refusals.{Printed};
    ghost use Rattle.odb_doc.specs.batch.Records.{Record};
    ghost use Rattle.odb_engine.specs.Halts.{Halted};
    ghost use Rattle.odb_engine.specs.declared.halt.Halt.TheVariants as halts;
    ghost use Rattle.odb_send.specs.Parts.{IsBatchIn};

    type Made;

    /// What is made, by the bytes of the document, their value, and the requests of the batch.
    ghost makes: { Self → List ℕ → Data → List Record → Self.Made → Type 0 };

    /// The fault by which nothing is made of these requests.
    ghost refuses: { Self → List Record → Printed → Type 0 };

    /// Returns what is made of the plan of the batch in a document, which was made with this seed.
    fn made(
        &self,
        alloc: Global,
        document: &[u8],
        plan: &Plan<'_>,
        seed: Seed,
    ) -> Result<Self::Made, Halt>
        requires document { (d : Data) × IsBatchIn document.now d (plan_records plan.now) }
        requires seed { IsSeeded seed.number plan.now }
        ensures made { IfOk result (λ made. (d : Data)
            → IsBatchIn document.now d (plan_records plan.now)
            → makes self.now document.now d (plan_records plan.now) made) }
        ensures least { IfErr result (Halted (refuses self.now (plan_records plan.now))) }
        ensures read { result ≢ Err halts.Read };
}

/// Returns what is made of the plan of the batch in a document in memory. Names are looked up by the seed.
///
/// # Errors
///
/// `Refused` by the first fault of the batch, or as nothing is made of it; `OutOfMemory` if an allocation fails. Never
/// `Read`.
pub(crate) fn made_of<M: OfPlan>(
    alloc: Global,
    document: &[u8],
    maker: &M,
    seed: Seed,
) -> Result<M::Made, Halt>
    ensures made { IfOk result (λ made. AcceptsAs document.now
        (λ value batch. M.makes maker.now document.now value batch made)) }
    ensures least { IfErr result (Halted (IsLeastOfMaking document.now (M.refuses maker.now))) }
    ensures read { result ≢ Err halts.Read }
{
    let value = value_in(alloc, document, Place::Batch)?;
    let read = Batch::read(alloc, &value)?;
    let plan = check_with(alloc, seed, &read)?;
    maker.made(alloc, document, &plan, seed)
}
