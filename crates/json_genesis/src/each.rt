//! Lists, item by item.

ghost use Rattle.std.specs.Prelude.{IfOk, IfErr};
ghost use Rattle.serde_json.specs.Data.{Data};
ghost use Rattle.serde_json.specs.View.{view, items_view};
ghost use Rattle.json_fields.specs.Lists.{AreItems};
ghost use Rattle.json_genesis.specs.Refused.{NoneIs};

use crate::refusal::GenesisRefusal;
use serde_json::Value;
use std::alloc::Global;

/// How an item of a list is read.
pub(crate) trait ReadItem {
    type Item: Drop;

    // the value that the data spells
    ghost spells: { Self → Data → Self.Item → Type 0 };

    fn read(&self, alloc: Global, value: &Value) -> Result<Self::Item, GenesisRefusal>
        ensures ok { IfOk result (λ x. spells self.now (view value.now) x) }
        ensures refused { IfErr result (λ r. NoneIs (spells self.now (view value.now)) r) };
}

/// What each item spells, in order. The first that spells nothing is what refuses the list.
pub(crate) fn read_each<R: ReadItem>(
    alloc: Global,
    reader: &R,
    values: &[Value],
) -> Result<Vec<R::Item>, GenesisRefusal>
    ensures ok { IfOk result (λ v. AreItems (R.spells reader.now) (items_view values.now) v.items) }
    ensures refused { IfErr result
        (λ r. NoneIs (AreItems (R.spells reader.now) (items_view values.now)) r) }
{
    let mut found = Vec::new(alloc);
    'items: for value in values {
        found.push(reader.read(alloc, value)?)?;
    }
    Ok(found)
}
