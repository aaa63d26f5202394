//! The command `version`.

ghost use Rattle.std.specs.Prelude.{◌≡◌, [], ◌∷◌, IfOk, OnErr, OnOk};
ghost use Rattle.serde_json.specs.View.{view};
ghost use Rattle.cli_lines.specs.Told.{Answers, PrintsNothing, Tells};
ghost use Rattle.cli_show.specs.Lines.{HasLines};
ghost use Rattle.cli_show.specs.Version.{Versions, told_json, version_json};

use cli_lines::{Failure, Printer, print_line};
use json_chain::{Object, line_of};
use ledger_table::table_of;
use serde_json::Value;
use std::alloc::{AllocError, Global};
use std::io::Write;

/// The number of this program: another one where it does something else.
const PROGRAM: u8 = 1;

/// The number of the lines that `peer` reads and prints.
const LINES: u8 = 2;

/// The newest of the ledger's rules that this program knows. Programs of one number make of the same
/// lines the same chain, under each rules that both know.
const RULES: u8 = 2;

/// The number of the bytes of a store.
const STORE: u8 = 1;

/// Prints these numbers, or the table, as a line of JSON.
pub fn version<W: Write>(
    alloc: Global,
    has_table: bool,
    out: &mut Printer<'_, W>,
) -> Result<(), Failure>
    ensures tells { Tells out.old out.new result }
    ensures answers { Answers (Versions has_table) out.old out.new result }
    ensures line { OnOk result
        (HasLines (told_json has_table ∷ []) out.old.bytes out.new.bytes) }
    ensures nothing { OnErr result (PrintsNothing out.old out.new) }
{
    let line = line_of(alloc, &told(alloc, has_table)?)?;
    print_line(&line, out)
}

/// The table of what the program's words stand for, or these numbers.
fn told(alloc: Global, has_table: bool) -> Result<Value, AllocError>
    ensures { IfOk result (λ v. view v ≡ told_json has_table) }
{
    if has_table {
        table_of(alloc)
    } else {
        numbers(alloc)
    }
}

/// These numbers.
fn numbers(alloc: Global) -> Result<Value, AllocError>
    ensures { IfOk result (λ v. view v ≡ version_json PROGRAM LINES RULES STORE) }
{
    let mut object = Object::new(alloc);
    object.put("lines", Value::from(LINES))?;
    object.put("program", Value::from(PROGRAM))?;
    object.put("rules", Value::from(RULES))?;
    object.put("store", Value::from(STORE))?;
    Ok(object.into_value())
}
