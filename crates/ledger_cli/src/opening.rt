//! The genesis that a command works by.

ghost use Rattle.std.specs.Prelude.{◌≡◌, ◌≤◌, [], length, option_map, IfOk, IfErr, IsOkAnd, MatchResult, OnOk};
ghost use Rattle.json_genesis.specs.Spelling.{Spells, SpellsHolding, SpellsModules};
ghost use Rattle.cli_lines.specs.Opening.{AreNoModules, IsNoGenesis};
ghost use Rattle.cli_lines.specs.Sealing.{HasSeeds, IsNoKeyFile};
ghost use Rattle.cli_lines.specs.Told.{IsBrokenOff, IsSilent};
ghost use Rattle.ledger_cli.specs.Opening.{NotOpens, Opens, Signs, SpellsNoneWith, SpellsWith};

use chaincode_book::Held;
use cli_lines::{
    Failure, FileFault, Files, Location, explain, explain_read, genesis_holding, genesis_in,
    modules_in, read_all, read_all_explained, signers_in,
};
use cli_words::Beginning;
use json_reasons::{genesis_reason, modules_reason};
use ledger_setting::Genesis;
use org_keys::Signers;
use peer_answers::LogGenesis;
use sha2::{Digest, Sha256};
use std::alloc::Global;
use std::sync::Arc;

/// What a system begins with, by the files of these names, and the genesis file's digest. Of several
/// files that are refused the genesis file is told first, then the modules file, then the key file.
/// Why is said in words too.
pub(crate) fn opened<F: Files>(
    alloc: Global,
    files: &mut F,
    begin: &Beginning<'_>,
) -> Result<LogGenesis, Failure>
    ensures silent { IfErr result IsSilent }
    ensures opens { IfOk result (Opens (F.bytes files.old) begin.now) }
    ensures refused { IfErr result (NotOpens (F.bytes files.old) begin.now) }
    ensures kept { F.bytes files.new ≡ F.bytes files.old }
    ensures input { OnOk result (F.input_bytes files.new ≡ F.input_bytes files.old) }
{
    let bytes = read_all_explained(alloc, files, begin.genesis)?;
    let genesis = genesis_of(alloc, files, begin, &bytes)?;
    let digest = Sha256::digest(bytes.as_slice());
    let log = LogGenesis { genesis, digest };
    match begin.keys {
        Some(keys) => with_signers(log, signers(alloc, files, keys)),
        None => Ok(log),
    }
}

/// What a system begins with by the bytes of the genesis file, and by the modules file, if there is
/// one.
fn genesis_of<F: Files>(
    alloc: Global,
    files: &mut F,
    begin: &Beginning<'_>,
    bytes: &[u8],
) -> Result<Genesis, Failure>
    ensures silent { IfErr result IsSilent }
    ensures spelled { IfOk result
        (SpellsWith bytes.now (option_map (λ name. F.bytes files.old name.now)
        begin.now.modules)) }
    ensures refused { IfErr result
        (SpellsNoneWith bytes.now (option_map (λ name. F.bytes files.old name.now)
        begin.now.modules)) }
    ensures kept { F.bytes files.new ≡ F.bytes files.old }
    ensures input { OnOk result (F.input_bytes files.new ≡ F.input_bytes files.old) }
{
    let Some(name) = begin.modules else {
        return genesis_explained(alloc, files, begin.genesis, bytes);
    };
    let read = read_all(alloc, files, name);
    match held(alloc, &read) {
        Ok(held) => holding_explained(alloc, files, begin.genesis, bytes, held),
        Err(failure) => {
            genesis_explained(alloc, files, begin.genesis, bytes)?;
            explain_modules(alloc, files, name, &read, &failure);
            Err(failure)
        }
    }
}

/// What a system begins with by the bytes of the genesis file of this name. Says why they are
/// refused, if they are.
fn genesis_explained<F: Files>(
    alloc: Global,
    files: &mut F,
    name: &str,
    bytes: &[u8],
) -> Result<Genesis, Failure>
    ensures silent { IfErr result IsSilent }
    ensures spelled { IfOk result (Spells bytes.now) }
    ensures refused { IfErr result (IsNoGenesis bytes.now []) }
    ensures unchanged { OnOk result (files.new ≡ files.old) }
    ensures kept { F.bytes files.new ≡ F.bytes files.old }
{
    let genesis = genesis_in(alloc, bytes);
    explain_genesis(alloc, files, name, bytes, &genesis);
    genesis
}

/// The same with these modules at hand.
fn holding_explained<F: Files>(
    alloc: Global,
    files: &mut F,
    name: &str,
    bytes: &[u8],
    held: Vec<Held>,
) -> Result<Genesis, Failure>
    requires count { length held.items ≤ 64 }
    ensures silent { IfErr result IsSilent }
    ensures spelled { IfOk result (SpellsHolding bytes.now held.items) }
    ensures refused { IfErr result (IsNoGenesis bytes.now held.items) }
    ensures unchanged { OnOk result (files.new ≡ files.old) }
    ensures kept { F.bytes files.new ≡ F.bytes files.old }
{
    let genesis = genesis_holding(alloc, bytes, held);
    explain_genesis(alloc, files, name, bytes, &genesis);
    genesis
}

/// The modules in a modules file that was read, or not.
fn held(alloc: Global, read: &Result<Vec<u8>, FileFault>) -> Result<Vec<Held>, Failure>
    ensures count { IfOk result (λ held. length held.items ≤ 64) }
    ensures silent { IfErr result IsSilent }
    ensures spelled { IfOk result
        (λ held. IsOkAnd read.now (λ v. SpellsModules v.items held.items)) }
    ensures refused { IfErr result
        (λ f. MatchResult read.now (λ v. AreNoModules v.items f) (λ _. IsBrokenOff f)) }
{
    match read {
        Ok(bytes) => modules_in(alloc, bytes),
        Err(fault) => Err(Failure::from(*fault)),
    }
}

/// Says why the bytes of a genesis file are refused, if they are.
fn explain_genesis<F: Files>(
    alloc: Global,
    files: &mut F,
    name: &str,
    bytes: &[u8],
    genesis: &Result<Genesis, Failure>,
)
    ensures unchanged { OnOk genesis.now (files.new ≡ files.old) }
    ensures kept { F.bytes files.new ≡ F.bytes files.old }
{
    if let Err(Failure::Genesis(refusal)) = genesis {
        let reason = genesis_reason(alloc, bytes, refusal);
        explain(alloc, files, &Location::file(name), reason);
    }
}

/// Says why a modules file was not read, or its bytes are refused.
fn explain_modules<F: Files>(
    alloc: Global,
    files: &mut F,
    name: &str,
    read: &Result<Vec<u8>, FileFault>,
    failure: &Failure,
)
    ensures kept { F.bytes files.new ≡ F.bytes files.old }
{
    match (read, failure) {
        (Ok(bytes), Failure::Genesis(refusal)) => {
            let reason = modules_reason(alloc, bytes, refusal);
            explain(alloc, files, &Location::file(name), reason);
        }
        _ => explain_read(alloc, files, name, read),
    }
}

/// The seeds in the key file of this name.
fn signers<F: Files>(alloc: Global, files: &mut F, name: &str) -> Result<Arc<Signers>, Failure>
    ensures silent { IfErr result IsSilent }
    ensures spelled { IfOk result
        (λ signers. HasSeeds (F.bytes files.old name.now) signers.value) }
    ensures refused { IfErr result (IsNoKeyFile (F.bytes files.old name.now)) }
    ensures kept { F.bytes files.new ≡ F.bytes files.old }
    ensures input { OnOk result (F.input_bytes files.new ≡ F.input_bytes files.old) }
{
    let signers = signers_in(alloc, files, name)?;
    Ok(Arc::new(alloc, signers)?)
}

/// A genesis with these seeds at hand, where they were read.
fn with_signers(
    mut log: LogGenesis,
    signers: Result<Arc<Signers>, Failure>,
) -> Result<LogGenesis, Failure>
    requires silent { IfErr signers IsSilent }
    ensures silent { IfErr result IsSilent }
    ensures signed { Signs log signers result }
{
    match signers {
        Ok(signers) => {
            log.genesis.signers = signers;
            Ok(log)
        }
        Err(failure) => Err(failure),
    }
}
