//! The line of who stands.

ghost use Rattle.std.specs.Prelude.{[], ◌∷◌, IfErr, IfOk, OnErr, OnOk, string_bytes};
ghost use Rattle.std.specs.FinMap.{get};
ghost use Rattle.fab_types.specs.Memberships.{membership_key};
ghost use Rattle.endorsement_policy.specs.Judge.{plain_in};
ghost use Rattle.endorsement_policy.specs.Membership.{usable_membership};
ghost use Rattle.cli_lines.specs.Told.{IsBrokenOff, PrintsNothing, Tells};
ghost use Rattle.json_chain.specs.JsonText.{IsJsonText};
ghost use Rattle.json_chain.specs.Memberships.{standing_json};
ghost use Rattle.cli_show.specs.Lines.{HasLines};

use cli_lines::{Failure, Printer, print_line};
use endorsement_policy::Rules;
use json_chain::{line_of, standing_of_state};
use std::alloc::{AllocError, Global};
use std::io::Write;
use world_state::StateMap;

/// Prints what stands in a state, as a line of JSON: the membership there, where one stands that can
/// be used, else what the genesis says.
pub(crate) fn print_members<W: Write>(
    alloc: Global,
    rules: &Rules,
    state: &StateMap,
    out: &mut Printer<'_, W>,
) -> Result<(), Failure>
    ensures tells { Tells out.old out.new result }
    ensures lost { IfErr result IsBrokenOff }
    ensures line { OnOk result
        (HasLines
        (standing_json rules.now
        (usable_membership rules.now.installed.orgs
        (get (plain_in state.now.entries) membership_key)) ∷ [])
        out.old.bytes out.new.bytes) }
    ensures nothing { OnErr result (PrintsNothing out.old out.new) }
{
    let line = standing_line(alloc, rules, state)?;
    print_line(&line, out)
}

/// That line. The error is of memory.
fn standing_line(alloc: Global, rules: &Rules, state: &StateMap) -> Result<String, AllocError>
    ensures { IfOk result
        (λ s. IsJsonText
        (standing_json rules.now
        (usable_membership rules.now.installed.orgs
        (get (plain_in state.now.entries) membership_key)))
        (string_bytes s)) }
{
    line_of(alloc, &standing_of_state(alloc, rules, state)?)
}
