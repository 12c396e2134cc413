//! The lines that `plan` prints.

ghost use Rattle.std.specs.Prelude.{◌≡◌, ◌<◌, ◌++◌, [], length, All, Some, IfOk, OnOk, option_copied, string_bytes};
ghost use Rattle.odb_check.specs.Plans.{plan_records, plan_graph};
ghost use Rattle.odb_check.specs.PlanGraph.{IsNeed};
ghost use Rattle.odb_check.specs.Texts as texts;

use crate::need::Need;
use crate::plan::Plan;
use std::alloc::{AllocError, Global};
use std::fmt::Write;

/// The name of a group, or `*` for none.
fn group_text<'g>(group: Option<&'g str>) -> &'g str
    ensures { result.now ≡ texts.group_text (option_copied group.entry) }
{
    match group {
        Some(name) => name,
        None => "*",
    }
}

/// Appends the line up to the names of its dependencies.
fn push_head(text: &mut String, i: u32, id: &str, level: u32, group: &str) -> Result<(), AllocError>
    ensures { OnOk result (string_bytes text.new
        ≡ string_bytes text.old ++ texts.line_head i id.now level group.now) }
{
    write!(text, "{i} {id} level {level} group {group} needs ").map_err(|_| AllocError)
}

impl Plan<'_> {
    /// Returns the name of a dependency: the identifier of a request, or the name of a group.
    #[tactic(auto, using(crate::proofs::PlanLemmas::shaped))]
    pub fn name_of(&self, need: Need) -> &str
        requires { IsNeed (plan_graph self.now) need }
        ensures { result.now ≡ texts.need_name (plan_records self.now) need }
    {
        match need {
            Need::One(position) => self.request(position).id,
            Need::Group(unit) => group_text(self.request(self.members(unit).start).group),
        }
    }

    /// Appends names, each after a comma.
    fn push_further(&self, text: &mut String, needs: &[Need]) -> Result<(), AllocError>
        requires { All (IsNeed (plan_graph self.now)) needs.now }
        ensures { OnOk result (string_bytes text.new
            ≡ string_bytes text.old ++ texts.further_text (plan_records self.now) needs.now) }
    {
        for need in needs {
            text.push_str(",")?;
            text.push_str(self.name_of(*need))?;
        }
        Ok(())
    }

    /// Appends names with commas between them, or `*` for none.
    fn push_names(&self, text: &mut String, needs: &[Need]) -> Result<(), AllocError>
        requires { All (IsNeed (plan_graph self.now)) needs.now }
        ensures { OnOk result (string_bytes text.new
            ≡ string_bytes text.old ++ texts.names_text (plan_records self.now) needs.now) }
    {
        match needs {
            [] => text.push_str("*"),
            [first, further @ ..] => {
                text.push_str(self.name_of(*first))?;
                self.push_further(text, further)
            }
        }
    }

    /// Appends the line of the request at a position.
    #[tactic(auto, using(crate::proofs::PlanLemmas::shaped))]
    fn push_line(&self, text: &mut String, i: u32) -> Result<(), AllocError>
        requires { i < length (plan_records self.now) }
        ensures { OnOk result (string_bytes text.new
            ≡ string_bytes text.old ++ texts.plan_line (plan_records self.now) i) }
    {
        let request = self.request(i);
        push_head(
            text,
            i,
            request.id,
            self.level(i),
            group_text(request.group),
        )?;
        self.push_names(text, self.needs(i))?;
        text.push_str("\n")
    }

    /// Returns a line per request, each with a newline at its end: `POS ID level L group G needs NAMES`.
    ///
    /// `G` is the name of the group, or `*`. `NAMES` are the names of the needs in their order, with
    /// commas between them, or `*`: the identifier of a request, or the name of a group.
    ///
    /// `alloc` is asked for the text alone. Returns `AllocError` if that allocation fails.
    ///
    /// Example: `plan_text_of` in crates/odb_tests_text/src/laws/texts.rt.
    pub fn text(&self, alloc: Global) -> Result<String, AllocError>
        ensures { IfOk result (λ text. string_bytes text
            ≡ texts.plan_text (plan_records self.now)) }
    {
        let mut text = String::new(alloc);
        for i in 0..self.len() {
            self.push_line(&mut text, i)?;
        }
        Ok(text)
    }
}
