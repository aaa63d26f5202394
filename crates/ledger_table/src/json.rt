//! The tables as JSON.

ghost use Rattle.std.specs.Prelude.{◌≡◌, IfOk, map};
ghost use Rattle.serde_json.specs.Data.{Data, array};
ghost use Rattle.serde_json.specs.View.{items_of, view};
ghost use Rattle.ledger_table.specs.Table.{all_flags, all_limits, all_names, all_numbers, flag_json, flag_row, limit_json, limit_row, list_json, name_json, name_row, number_json, number_row, table_json};

use crate::flags::{FlagRow, flag_rows};
use crate::limits::{LimitRow, limit_rows};
use crate::names::{NameRow, name_rows};
use crate::numbers::{NumberRow, number_rows};
use serde_json::{Map, Value, put};
use std::alloc::{AllocError, Global};

/// All four tables, as one object. The only error is want of memory, as of those below.
pub fn table_of(alloc: Global) -> Result<Value, AllocError>
    ensures { IfOk result (λ v. view v ≡ table_json) }
{
    let mut object = Map::new(alloc);
    put(&mut object, alloc, "flags", flags(alloc)?)?;
    put(&mut object, alloc, "limits", limits(alloc)?)?;
    put(&mut object, alloc, "names", names(alloc)?)?;
    put(&mut object, alloc, "numbers", numbers(alloc)?)?;
    Ok(Value::Object(object))
}

fn flags(alloc: Global) -> Result<Value, AllocError>
    ensures { IfOk result (λ v. view v ≡ list_json flag_json all_flags) }
{
    list(alloc, flag_rows())
}

fn limits(alloc: Global) -> Result<Value, AllocError>
    ensures { IfOk result (λ v. view v ≡ list_json limit_json all_limits) }
{
    list(alloc, limit_rows())
}

fn names(alloc: Global) -> Result<Value, AllocError>
    ensures { IfOk result (λ v. view v ≡ list_json name_json all_names) }
{
    list(alloc, name_rows())
}

fn numbers(alloc: Global) -> Result<Value, AllocError>
    ensures { IfOk result (λ v. view v ≡ list_json number_json all_numbers) }
{
    list(alloc, number_rows())
}

/// A row of a table.
trait Row {
    /// What it is as JSON.
    ghost json: { Self → Data };

    /// The value that it is as JSON.
    fn to_json(&self, alloc: Global) -> Result<Value, AllocError>
        ensures { IfOk result (λ v. view v ≡ json self.now) };
}

/// The rows of a table, in order.
fn list<R: Row>(alloc: Global, rows: &[R]) -> Result<Value, AllocError>
    ensures { IfOk result (λ v. view v ≡ array (items_of (map R.json rows.now))) }
{
    let mut values = Vec::new(alloc);
    for row in rows {
        values.push(row.to_json(alloc)?)?;
    }
    Ok(Value::Array(values))
}

impl Row for NumberRow {
    ghost json = { λ r. number_json (number_row r) };

    fn to_json(&self, alloc: Global) -> Result<Value, AllocError> {
        let (number, meaning, advice) = self;
        let mut object = Map::new(alloc);
        put(
            &mut object,
            alloc,
            "advice",
            Value::try_from_str(alloc, advice)?,
        )?;
        put(
            &mut object,
            alloc,
            "meaning",
            Value::try_from_str(alloc, meaning)?,
        )?;
        put(&mut object, alloc, "number", Value::from(*number))?;
        Ok(Value::Object(object))
    }
}

impl Row for FlagRow {
    ghost json = { λ r. flag_json (flag_row r) };

    fn to_json(&self, alloc: Global) -> Result<Value, AllocError> {
        let (number, name, meaning) = self;
        let mut object = Map::new(alloc);
        put(
            &mut object,
            alloc,
            "meaning",
            Value::try_from_str(alloc, meaning)?,
        )?;
        put(
            &mut object,
            alloc,
            "name",
            Value::try_from_str(alloc, name)?,
        )?;
        put(&mut object, alloc, "number", Value::from(*number))?;
        Ok(Value::Object(object))
    }
}

impl Row for LimitRow {
    ghost json = { λ r. limit_json (limit_row r) };

    fn to_json(&self, alloc: Global) -> Result<Value, AllocError> {
        let (name, least, greatest, of) = self;
        let mut object = Map::new(alloc);
        put(&mut object, alloc, "greatest", Value::from(*greatest))?;
        put(&mut object, alloc, "least", Value::from(*least))?;
        put(
            &mut object,
            alloc,
            "name",
            Value::try_from_str(alloc, name)?,
        )?;
        put(&mut object, alloc, "of", Value::try_from_str(alloc, of)?)?;
        Ok(Value::Object(object))
    }
}

impl Row for NameRow {
    ghost json = { λ r. name_json (name_row r) };

    fn to_json(&self, alloc: Global) -> Result<Value, AllocError> {
        let (of, characters, least, greatest) = self;
        let mut object = Map::new(alloc);
        put(
            &mut object,
            alloc,
            "characters",
            Value::try_from_str(alloc, characters)?,
        )?;
        put(&mut object, alloc, "greatest", Value::from(*greatest))?;
        put(&mut object, alloc, "least", Value::from(*least))?;
        put(&mut object, alloc, "of", Value::try_from_str(alloc, of)?)?;
        Ok(Value::Object(object))
    }
}
