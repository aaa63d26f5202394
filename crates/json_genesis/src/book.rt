//! The book.

ghost use Rattle.std.specs.Prelude.{◌≡◌, IfOk, IfErr, List};
ghost use Rattle.serde_json.specs.View.{view};
ghost use Rattle.endorsement_policy.specs.declared.rules.ChaincodePolicy.{ChaincodePolicy};
ghost use Rattle.chaincode_book.specs.Books.{Book};
ghost use Rattle.json_genesis.specs.Refused.{NoneIs};
ghost use Rattle.json_genesis.specs.Spelling.{IsBookOf, names_of};

use crate::chaincodes::{Apart, DefinitionReader, parted};
use crate::lists::read_list;
use crate::modules::{ModuleReader, modules_apart};
use crate::refusal::GenesisRefusal;
use chaincode_book::{Book, Held};
use endorsement_policy::{ChaincodePolicy, Installed};
use fab_types::limits::{MOST_CHAINCODES, MOST_MODULES};
use fab_types::{Edition, OrgName};
use org_keys::Organisation;
use serde_json::Value;
use std::alloc::Global;

/// The book by an edition of the rules of the chaincodes and modules that are listed, where the
/// ledger has these organisations, of these names, and those modules are at hand that are held; and
/// the policies of its chaincodes.
pub(crate) fn book(
    alloc: Global,
    edition: Edition,
    chaincodes: &Value,
    modules: &Value,
    organisations: Vec<Organisation>,
    orgs: &[OrgName],
    held: Vec<Held>,
) -> Result<(Book, Vec<ChaincodePolicy>), GenesisRefusal>
    requires { orgs.now ≡ names_of organisations.items }
    ensures ok { IfOk result
        (λ b. IsBookOf edition organisations.items held.items (view chaincodes.now)
        (view modules.now) b.0 b.1.items) }
    ensures refused { IfErr result
        (λ r. NoneIs
        (λ (b : Book × List ChaincodePolicy). IsBookOf edition organisations.items held.items
        (view chaincodes.now) (view modules.now) b.0 b.1) r) }
{
    let reader = DefinitionReader { orgs };
    let definitions = read_list(alloc, &reader, chaincodes, 1, MOST_CHAINCODES)?;
    let more = read_list(alloc, &ModuleReader, modules, 0, MOST_MODULES)?;
    let Apart {
        chaincodes,
        ids,
        policies,
    } = parted(alloc, definitions)?;
    let (modules, ids) = modules_apart(alloc, more, ids)?;
    let installed = Installed::new(alloc, ids, organisations)?;
    match Book::new(edition, chaincodes, modules, installed, held) {
        Some(book) => Ok((book, policies)),
        None => Err(GenesisRefusal::Names),
    }
}
