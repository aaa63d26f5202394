//! A state of values alone.

ghost use Rattle.std.specs.Prelude.{◌≡◌, option_map, OnOk, OnErr};
ghost use Rattle.std.specs.FinMap.{empty, get};
ghost use Rattle.ledger_model.specs.Serial.{write};
ghost use Rattle.host_api.specs.Plain.{plain_of};

use crate::view::View;
use fab_types::{Bound, Key, Value, Version, WriteItem};
use std::alloc::{AllocError, Global};
use std::marker::Model;
use world_state::{StateMap, first_entries};

/// Keys with their values: the state that the serial run goes on. As a view each key has the
/// version of block 1 and place 0, which says no more than that it is there. Contracts see the
/// entries.
#[derive(Drop)]
pub struct PlainMap {
    map: StateMap,
}

impl Model for PlainMap {
    ghost use Rattle.std.specs.Prelude.{List};
    ghost use Rattle.ledger_model.specs.Chain.{Bytes, Version};

    ghost Value = { List (Bytes × (Bytes × Version)) };

    ghost view = { λ m. m.map.entries };
}

impl PlainMap {
    /// The state without keys. It takes no memory.
    pub fn empty(alloc: Global) -> PlainMap
        ensures { plain_of result ≡ empty }
    {
        PlainMap {
            map: StateMap::new(alloc),
        }
    }

    /// A key's value. None where the key is absent.
    pub fn get(&self, key: &Key) -> Option<&Value>
        ensures { option_map (λ v. v.now) result ≡ get (plain_of self.now) key.now }
    {
        match self.map.get(key) {
            Some(entry) => Some(&entry.0),
            None => None,
        }
    }

    /// Puts the key's value, or takes the key out. Where memory is refused the state stays as it
    /// was.
    pub fn write(&mut self, item: &WriteItem) -> Result<(), AllocError>
        ensures written { OnOk result
            (plain_of self.new ≡ write (plain_of self.old) item.now.key item.now.value) }
        ensures refused { OnErr result (self.new ≡ self.old) }
    {
        match &item.value {
            Some(value) => {
                let entry = (value.clone()?, first_version());
                self.map.put(item.key.clone()?, entry)?;
            }
            None => {
                self.map.delete(&item.key)?;
            }
        }
        Ok(())
    }
}

fn first_version() -> Version {
    Version::new(1, 0).unwrap()
}

impl View for PlainMap {
    ghost use Rattle.world_state.specs.Writing.{as_state};

    ghost state = { λ m. as_state m };

    fn get(&self, key: &Key) -> Option<(&Value, Version)> {
        match self.map.get(key) {
            Some(entry) => Some((&entry.0, entry.1)),
            None => None,
        }
    }

    fn range(
        &self,
        alloc: Global,
        start: &Bound,
        end: &Bound,
        n: usize,
    ) -> Result<Vec<(&Key, &(Value, Version))>, AllocError> {
        first_entries(alloc, &self.map, start, end, n)
    }
}
