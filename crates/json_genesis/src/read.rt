//! The file as a whole.

ghost use Rattle.std.specs.Prelude.{◌≤◌, List, length, IfOk, IfErr};
ghost use Rattle.serde_json.specs.View.{view};
ghost use Rattle.chaincode_book.specs.declared.book.Held.{Held};
ghost use Rattle.json_genesis.specs.Fields.{parts_of};
ghost use Rattle.json_genesis.specs.NoGenesis.{NoGenesis, NoGenesisHolding};
ghost use Rattle.json_genesis.specs.Opening.{CanOpen};
ghost use Rattle.json_genesis.specs.Refused.{NoneIs};
ghost use Rattle.json_genesis.specs.Settings.{IsSetting};
ghost use Rattle.json_genesis.specs.Spelling.{IsGenesis, IsGenesisOf, Spells, SpellsHolding};

use crate::book::book;
use crate::chaincodes::upgrade_policy;
use crate::fields::{GenesisFields, genesis_fields};
use crate::lists::read_list;
use crate::numbers::{edition, size_within, truth};
use crate::organisations::organisations;
use crate::peers::PeerReader;
use crate::refusal::GenesisRefusal;
use chaincode_book::Held;
use endorsement_policy::Rules;
use fab_types::limits::{MOST_DATA_BYTES, MOST_PEERS, MOST_QUEUED, MOST_SEATS, MOST_TRANSACTIONS};
use fab_types::{Edition, OrgName};
use ledger_setting::Genesis;
use org_keys::{Organisation, Signers};
use policy_language::Policy;
use serde_json::Value;
use serde_json::error::Category;
use sha2::{Digest, Sha256};
use std::alloc::Global;
use std::sync::Arc;

/// The genesis that a text spells, with neither a module nor a seed at hand beside it.
///
/// Refused where the text is not JSON (801), where a field is missing, left over or of the wrong
/// kind or hex is not read (802), where a number, a length, a name or a public key is out of its
/// range (803), where a module (804) or a policy (805) is refused, where a name or a public key
/// stands twice or a peer's organisation is unknown (806), and for want of memory (9). Of several
/// causes any may be told.
pub fn read_genesis(alloc: Global, text: &str) -> Result<Genesis, GenesisRefusal>
    ensures ok { IfOk result (λ g. Spells text.now g) }
    ensures opening { IfOk result (λ g. CanOpen g) }
    ensures refused { IfErr result (λ r. NoGenesis text.now r) }
{
    read_genesis_holding(alloc, text, Vec::new(alloc))
}

/// The same with these modules at hand in its book, 64 at most, beside those that the text installs.
/// Refused as `read_genesis` refuses the text.
pub fn read_genesis_holding(
    alloc: Global,
    text: &str,
    held: Vec<Held>,
) -> Result<Genesis, GenesisRefusal>
    requires held { length held.items ≤ 64 }
    ensures ok { IfOk result (λ g. SpellsHolding text.now held.items g) }
    ensures opening { IfOk result (λ g. CanOpen g) }
    ensures refused { IfErr result (λ r. NoGenesisHolding text.now held.items r) }
{
    let ledger = Sha256::digest(text.as_bytes());
    match Value::from_str(alloc, text) {
        Ok(value) => genesis_of(alloc, &ledger, &value, held),
        Err(error) if error.classify() == Category::Memory => Err(GenesisRefusal::Memory),
        Err(_) => Err(GenesisRefusal::Json),
    }
}

/// The genesis that the data of a file with this SHA-256 spell, with these modules at hand.
fn genesis_of(
    alloc: Global,
    ledger: &[u8; 32],
    value: &Value,
    held: Vec<Held>,
) -> Result<Genesis, GenesisRefusal>
    ensures ok { IfOk result (λ g. IsGenesisOf ledger.now held.items (view value.now) g) }
    ensures refused { IfErr result
        (λ r. NoneIs (IsGenesisOf ledger.now held.items (view value.now)) r) }
{
    match genesis_fields(value) {
        Some(fields) => genesis_from(alloc, ledger, &fields, held),
        None => Err(GenesisRefusal::Field),
    }
}

/// The genesis that the fields spell, with these modules at hand.
fn genesis_from(
    alloc: Global,
    ledger: &[u8; 32],
    fields: &GenesisFields<'_>,
    held: Vec<Held>,
) -> Result<Genesis, GenesisRefusal>
    ensures ok { IfOk result (λ g. IsGenesis ledger.now held.items (parts_of fields.now) g) }
    ensures refused { IfErr result
        (λ r. NoneIs (IsGenesis ledger.now held.items (parts_of fields.now)) r) }
{
    match setting_of(alloc, ledger, fields) {
        Ok(setting) => genesis_with(alloc, ledger, fields, setting, held),
        Err(refusal) => Err(refusal),
    }
}

/// What the fields spell but for the book.
#[derive(Drop)]
struct Setting {
    seats: usize,
    queue: usize,
    count: usize,
    preferred: usize,
    absolute: usize,
    reorder: bool,
    edition: Edition,
    organisations: Vec<Organisation>,
    /// The names of the organisations.
    orgs: Vec<OrgName>,
    peers: Vec<OrgName>,
    upgrade: Policy,
}

/// What the fields spell but for the book, whatever modules are at hand.
fn setting_of(
    alloc: Global,
    ledger: &[u8; 32],
    fields: &GenesisFields<'_>,
) -> Result<Setting, GenesisRefusal>
    ensures ok { IfOk result (λ s. IsSetting ledger.now (parts_of fields.now) s) }
    ensures refused { IfErr result
        (λ r. (held : List Held) → NoneIs (IsGenesis ledger.now held (parts_of fields.now)) r) }
{
    let seats = size_within(fields.seats, 1, MOST_SEATS)?;
    let queue = size_within(fields.queue, 1, MOST_QUEUED)?;
    let count = size_within(fields.count, 1, MOST_TRANSACTIONS)?;
    let preferred = size_within(fields.preferred, 1, MOST_DATA_BYTES)?;
    let absolute = size_within(fields.absolute, 1, MOST_DATA_BYTES)?;
    let reorder = truth(fields.reorder)?;
    let edition = edition(fields.rules)?;
    let (organisations, orgs) = organisations(alloc, edition, ledger, fields.orgs)?;
    let reader = PeerReader { orgs: &orgs };
    let peers = read_list(alloc, &reader, fields.peers, 1, MOST_PEERS)?;
    let upgrade = upgrade_policy(alloc, fields.upgrade, &orgs)?;
    Ok(Setting {
        seats,
        queue,
        count,
        preferred,
        absolute,
        reorder,
        edition,
        organisations,
        orgs,
        peers,
        upgrade,
    })
}

/// The genesis of what the fields spell, with the book that they spell and these modules at hand.
fn genesis_with(
    alloc: Global,
    ledger: &[u8; 32],
    fields: &GenesisFields<'_>,
    setting: Setting,
    held: Vec<Held>,
) -> Result<Genesis, GenesisRefusal>
    requires spelled { IsSetting ledger.now (parts_of fields.now) setting }
    ensures ok { IfOk result (λ g. IsGenesis ledger.now held.items (parts_of fields.now) g) }
    ensures refused { IfErr result
        (λ r. NoneIs (IsGenesis ledger.now held.items (parts_of fields.now)) r) }
{
    let Setting {
        seats,
        queue,
        count,
        preferred,
        absolute,
        reorder,
        edition,
        organisations,
        orgs,
        peers,
        upgrade,
    } = setting;
    let (book, policies) = book(
        alloc,
        edition,
        fields.chaincodes,
        fields.modules,
        organisations,
        &orgs,
        held,
    )?;
    let installed = book.installed().clone()?;
    let Some(rules) = Rules::new(*ledger, edition, policies, upgrade, installed) else {
        return Err(GenesisRefusal::Policy);
    };
    Ok(Genesis {
        book: Arc::new(alloc, book)?,
        rules: Arc::new(alloc, rules)?,
        signers: Arc::new(alloc, Signers::none(alloc))?,
        peers,
        seats,
        queue,
        count,
        preferred,
        absolute,
        reorder,
    })
}
