//! A modules file.

ghost use Rattle.std.specs.Prelude.{◌≤◌, length, IfOk, IfErr};
ghost use Rattle.json_genesis.specs.NoGenesis.{NoModules};
ghost use Rattle.json_genesis.specs.Spelling.{SpellsModules};

use crate::lists::read_list;
use crate::modules::ModuleReader;
use crate::refusal::GenesisRefusal;
use chaincode_book::Held;
use fab_types::limits::MOST_HELD;
use serde_json::Value;
use serde_json::error::Category;
use std::alloc::Global;

/// The modules that a text spells: a list of 0 to 64, each as one of a genesis file's `modules`.
///
/// Refused where the text is not JSON (801), where it is no list, a field is missing, left over or
/// of the wrong kind or hex is not read (802), where the list is longer or a profile is neither 1
/// nor 2 (803), where a module is refused (804), and for want of memory (9). Of several causes any
/// may be told.
pub fn read_modules(alloc: Global, text: &str) -> Result<Vec<Held>, GenesisRefusal>
    ensures ok { IfOk result (λ v. SpellsModules text.now v.items) }
    ensures count { IfOk result (λ v. length v.items ≤ 64) }
    ensures refused { IfErr result (λ r. NoModules text.now r) }
{
    match Value::from_str(alloc, text) {
        Ok(value) => read_list(alloc, &ModuleReader, &value, 0, MOST_HELD),
        Err(error) if error.classify() == Category::Memory => Err(GenesisRefusal::Memory),
        Err(_) => Err(GenesisRefusal::Json),
    }
}
