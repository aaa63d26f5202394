//! The peers.

use crate::each::ReadItem;
use crate::refusal::GenesisRefusal;
use fab_types::OrgName;
use policy_language::is_among;
use serde_json::Value;
use std::alloc::Global;

/// Reads the organisation of a peer.
#[derive(Clone, Copy)]
pub(crate) struct PeerReader<'a> {
    pub orgs: &'a [OrgName],
}

impl ReadItem for PeerReader<'_> {
    type Item = OrgName;

    ghost use Rattle.json_genesis.specs.Spelling.{IsPeer};

    ghost spells = { λ r. IsPeer r.orgs.now };

    fn read(&self, _alloc: Global, value: &Value) -> Result<OrgName, GenesisRefusal> {
        let Some(text) = json_fields::text(value) else {
            return Err(GenesisRefusal::Field);
        };
        let Some(name) = OrgName::from_slice(text.as_bytes()) else {
            return Err(GenesisRefusal::Range);
        };
        if is_among(self.orgs, &name) {
            Ok(name)
        } else {
            Err(GenesisRefusal::Names)
        }
    }
}
