//! The seeds of a key file, and who can endorse with them.

ghost use Rattle.std.specs.Prelude.{◌≡◌, true, false, Ok, Err, IfErr, IfOk, OnOk, option_map};
ghost use Rattle.std.specs.List.{find, list_any};
ghost use Rattle.cli_lines.specs.Sealing.{HasSeeds, IsNoKeyFile, lacks_seed};
ghost use Rattle.cli_lines.specs.Told.{IsSilent};
ghost use Rattle.cli_lines.specs.declared.failure.Failure.TheVariants.{NoSeed};

use crate::explaining::{Location, explain_numbered, read_explained};
use crate::failure::Failure;
use crate::files::Files;
use ed25519::SigningKey;
use endorsement_policy::Rules;
use fab_types::OrgName;
use key_file::{KeyFault, read_keys};
use ledger_setting::Genesis;
use org_keys::Signers;
use std::alloc::Global;

/// A key file has at most 1,040 bytes. One byte more is read, so that a longer file is told apart.
const MOST_READ: u64 = 1_041;

/// What is wrong where an organisation has to endorse without its seed.
const NO_SEED: &str = "no seed of this organisation is at hand; name its key file by --keys";

/// What is wrong with a file that is no key file.
const NO_KEY_FILE: &str = "it is no key file, which has 1 to 16 lines, each of 64 hex digits";

/// The keys of the seeds in the key file of this name.
///
/// Refused where the file cannot be read (703), where it is no key file (809), which is said in
/// words too, and for want of memory (9).
pub fn keys_in<F: Files>(
    alloc: Global,
    files: &mut F,
    name: &str,
) -> Result<Vec<SigningKey>, Failure>
    ensures spelled { IfOk result (λ keys. HasSeeds (F.bytes files.old name.now) keys.items) }
    ensures silent { IfErr result IsSilent }
    ensures refused { IfErr result (IsNoKeyFile (F.bytes files.old name.now)) }
    ensures kept { F.bytes files.new ≡ F.bytes files.old }
    ensures input { OnOk result (F.input_bytes files.new ≡ F.input_bytes files.old) }
{
    let bytes = read_explained(alloc, files, name, MOST_READ)?;
    match read_keys(alloc, &bytes) {
        Ok(keys) => Ok(keys),
        Err(KeyFault::Memory) => Err(Failure::Memory),
        Err(KeyFault::Malformed) => {
            explain_numbered(alloc, files, &Location::file(name), NO_KEY_FILE, 809);
            Err(Failure::KeyFile)
        }
    }
}

/// The seeds in the key file of this name. Refused as `keys_in` is.
pub fn signers_in<F: Files>(alloc: Global, files: &mut F, name: &str) -> Result<Signers, Failure>
    ensures spelled { IfOk result (λ seeds. HasSeeds (F.bytes files.old name.now) seeds) }
    ensures silent { IfErr result IsSilent }
    ensures refused { IfErr result (IsNoKeyFile (F.bytes files.old name.now)) }
    ensures kept { F.bytes files.new ≡ F.bytes files.old }
    ensures input { OnOk result (F.input_bytes files.new ≡ F.input_bytes files.old) }
{
    Ok(Signers::new(keys_in(alloc, files, name)?))
}

/// Whether an organisation is listed with a public key whose seed is not among these. One that is
/// not listed lacks none.
fn lacks_seed(rules: &Rules, signers: &Signers, org: &OrgName) -> bool
    ensures { result ≡ lacks_seed rules.now signers.now org.now }
{
    match rules.organisation(org) {
        Some(organisation) => !signers.has(&organisation.key),
        None => false,
    }
}

/// Refused where one of these organisations lacks its seed (808), the first of which is said in
/// words too.
pub fn need_seeds<F: Files>(
    alloc: Global,
    files: &mut F,
    genesis: &Genesis,
    orgs: &[OrgName],
) -> Result<(), Failure>
    ensures ok { result ≡ Ok tt
        → list_any (lacks_seed genesis.now.rules.value genesis.now.signers.value) orgs.now ≡ false }
    ensures refused { result ≡ Err NoSeed
        → list_any (lacks_seed genesis.now.rules.value genesis.now.signers.value) orgs.now ≡ true }
    ensures only { IfErr result (λ f. f ≡ NoSeed) }
    ensures unchanged { OnOk result (files.new ≡ files.old) }
    ensures kept { F.bytes files.new ≡ F.bytes files.old }
    ensures silent { IfErr result IsSilent }
{
    match first_lacking(genesis, orgs) {
        Some(org) => {
            explain_no_seed(alloc, files, org);
            Err(Failure::NoSeed)
        }
        None => Ok(()),
    }
}

/// The first of these organisations that lacks its seed.
fn first_lacking<'a>(genesis: &Genesis, orgs: &'a [OrgName]) -> Option<&'a OrgName>
    ensures { option_map (λ o. o.now) result
        ≡ find (lacks_seed genesis.now.rules.value genesis.now.signers.value) orgs.now }
{
    let (rules, signers) = (&*genesis.rules, &*genesis.signers);
    orgs.iter().find(|org| lacks_seed(rules, signers, org))
}

/// Says whose seed is missing, and where it is looked for (808).
fn explain_no_seed<F: Files>(alloc: Global, files: &mut F, org: &OrgName)
    ensures kept { F.bytes files.new ≡ F.bytes files.old }
{
    if let Ok(org) = String::from_utf8_lossy(alloc, org.as_slice()) {
        explain_numbered(alloc, files, &Location::file(&org), NO_SEED, 808);
    }
}
