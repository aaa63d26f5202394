//! What the names of a run stand for.

ghost use Rattle.std.specs.Prelude.{◌≡◌, ℕ, List, Some, None, map, option_map, if◌then◌else◌, string_bytes, IfOk, OnOk, OnErr};
ghost use Rattle.std.specs.Str.{bytes_eq};
ghost use Rattle.json_events.specs.Bound.{bound_as, endorsements_of, payload_of, envelope_named};

use fab_types::{Endorsement, Endorsements, Envelope, Payload};
use std::alloc::{AllocError, Global};
use std::collections::BTreeMap;

/// What a finish gave: a payload and one peer's endorsement of it.
#[derive(Drop)]
pub struct Endorsed {
    pub payload: Payload,
    pub endorsement: Endorsement,
}

/// The names that a run bound by `as`. Contracts see what each name stands for (`bound_as`).
#[derive(Drop)]
pub struct Bindings {
    alloc: Global,
    by_name: BTreeMap<String, Endorsed>,
}

impl Bindings {
    /// No name stands for anything.
    pub fn new(alloc: Global) -> Bindings
        ensures { (name : List ℕ) → bound_as result name ≡ None }
    {
        Bindings {
            alloc,
            by_name: BTreeMap::new(alloc),
        }
    }

    /// Binds a name. What the name stood for before is forgotten.
    ///
    /// Want of memory leaves every name as it was.
    pub fn bind(
        &mut self,
        name: String,
        payload: Payload,
        endorsement: Endorsement,
    ) -> Result<(), AllocError>
        ensures ok { OnOk result
            ((other : List ℕ) →
            bound_as self.new other
            ≡ (if bytes_eq other (string_bytes name) then Some
            (record { payload = payload; endorsement = endorsement }) else bound_as
            self.old other)) }
        ensures err { OnErr result
            ((other : List ℕ) → bound_as self.new other ≡ bound_as self.old other) }
    {
        let endorsed = Endorsed {
            payload,
            endorsement,
        };
        self.by_name.insert(name, endorsed)?;
        Ok(())
    }

    /// The envelope that names stand for together: the payload of the first, and the endorsements
    /// of all in order.
    ///
    /// None where there is no name, where one stands for nothing, and where there are more than 32.
    pub fn resolve(&self, names: &[String]) -> Result<Option<Envelope>, AllocError>
        ensures { IfOk result
            (λ found. found ≡ envelope_named (bound_as self.now) (map string_bytes names.now)) }
    {
        let Some(payload) = self.payload(names) else {
            return Ok(None);
        };
        let Some(endorsements) = self.endorsements(names)? else {
            return Ok(None);
        };
        let Some(endorsements) = Endorsements::new(endorsements) else {
            return Ok(None);
        };
        let payload = payload.clone()?;
        Ok(Some(Envelope {
            payload,
            endorsements,
        }))
    }

    /// What a name stands for.
    fn get(&self, name: &str) -> Option<&Endorsed>
        ensures { option_map (λ e. e.now) result ≡ bound_as self.now name.now }
    {
        self.by_name.get(name)
    }

    /// The payload that the first name stands for.
    fn payload(&self, names: &[String]) -> Option<&Payload>
        ensures { option_map (λ p. p.now) result
            ≡ payload_of (bound_as self.now) (map string_bytes names.now) }
    {
        let endorsed = self.get(names.first()?.as_str())?;
        Some(&endorsed.payload)
    }

    /// The endorsements that all the names stand for, in order. None where one stands for nothing.
    fn endorsements(&self, names: &[String]) -> Result<Option<Vec<Endorsement>>, AllocError>
        ensures { IfOk result
            (λ found. option_map (λ v. v.items) found
            ≡ endorsements_of (bound_as self.now) (map string_bytes names.now)) }
    {
        let mut found = Vec::new(self.alloc);
        'names: for name in names {
            let Some(endorsed) = self.get(name.as_str()) else {
                return Ok(None);
            };
            found.push(endorsed.endorsement.clone()?)?;
        }
        Ok(Some(found))
    }
}
