//! The lines of a state.

ghost use Rattle.std.specs.Prelude.{◌≡◌, IfErr, IfOk, OnErr, OnOk, map};
ghost use Rattle.std.specs.List.Sorted.{IsStrictlySortedBy};
ghost use Rattle.std.specs.Map.{keys_of};
ghost use Rattle.std.specs.Map.Iter.{deref_pair};
ghost use Rattle.cli_lines.specs.Told.{IsBrokenOff, Tells};
ghost use Rattle.ledger_model.specs.Views.{key_cmp};
ghost use Rattle.cli_show.specs.Lines.{HasLines, PrintsFirst, entries_json};

use cli_lines::{Failure, Printer, print_line};
use fab_types::{Key, Value, Version};
use json_chain::entry_line;
use std::alloc::{AllocError, Global};
use std::io::Write;
use world_state::StateMap;

/// References to the entries of a state, in key order. The error is of memory.
fn all_entries(
    alloc: Global,
    state: &StateMap,
) -> Result<Vec<(&Key, &(Value, Version))>, AllocError>
    ensures all { IfOk result (λ v. map deref_pair v.items ≡ state.now.entries) }
    ensures ordered { IsStrictlySortedBy key_cmp (keys_of state.now.entries) }
{
    state.range(None, None).collect(alloc)
}

/// Prints each entry of a state, in key order, as a line of JSON.
pub(crate) fn print_state<W: Write>(
    alloc: Global,
    state: &StateMap,
    out: &mut Printer<'_, W>,
) -> Result<(), Failure>
    ensures tells { Tells out.old out.new result }
    ensures lost { IfErr result IsBrokenOff }
    ensures ordered { IsStrictlySortedBy key_cmp (keys_of state.now.entries) }
    ensures lines { OnOk result
        (HasLines (entries_json state.now.entries) out.old.bytes out.new.bytes) }
    ensures first { OnErr result (PrintsFirst (entries_json state.now.entries) out.old out.new) }
{
    let entries = all_entries(alloc, state)?;
    print_entries(alloc, &entries, out)
}

fn print_entries<W: Write>(
    alloc: Global,
    entries: &[(&Key, &(Value, Version))],
    out: &mut Printer<'_, W>,
) -> Result<(), Failure>
    ensures tells { Tells out.old out.new result }
    ensures lost { IfErr result IsBrokenOff }
    ensures lines { OnOk result
        (HasLines (entries_json (map deref_pair entries.now)) out.old.bytes out.new.bytes) }
    ensures first { OnErr result
        (PrintsFirst (entries_json (map deref_pair entries.now)) out.old out.new) }
{
    for (key, entry) in entries {
        let line = entry_line(alloc, key, &entry.0, entry.1)?;
        print_line(&line, out)?;
    }
    Ok(())
}
