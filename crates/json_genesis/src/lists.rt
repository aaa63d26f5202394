//! Lists with limits.

ghost use Rattle.std.specs.Prelude.{IfOk, IfErr};
ghost use Rattle.serde_json.specs.View.{view};
ghost use Rattle.json_genesis.specs.Lists.{IsListOf};
ghost use Rattle.json_genesis.specs.Refused.{NoneIs};

use crate::each::{ReadItem, read_each};
use crate::refusal::GenesisRefusal;
use serde_json::Value;
use std::alloc::Global;

/// What the items of a list spell, which has the least count of them to the greatest.
pub(crate) fn read_list<R: ReadItem>(
    alloc: Global,
    reader: &R,
    value: &Value,
    least: usize,
    greatest: usize,
) -> Result<Vec<R::Item>, GenesisRefusal>
    ensures ok { IfOk result
        (λ v. IsListOf (R.spells reader.now) least greatest (view value.now) v.items) }
    ensures refused { IfErr result
        (λ r. NoneIs (IsListOf (R.spells reader.now) least greatest (view value.now)) r) }
{
    let Some(values) = json_fields::items(value) else {
        return Err(GenesisRefusal::Field);
    };
    if values.len() < least || values.len() > greatest {
        return Err(GenesisRefusal::Range);
    }
    read_each(alloc, reader, values)
}
