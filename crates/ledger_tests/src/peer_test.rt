//! The command `peer` on files in memory, of which every byte is known.

use crate::samples::genesis;
use cli_lines::{Files, MemoryFiles, Printer};
use cli_peer::{Peering, peer};
use endorsement_policy::Workers;
use peer_answers::LogGenesis;
use std::alloc::Global;
use std::io::Read;
use std::test::Fail;
use std::thread::Threads;

/// One peer and organisation A, which has to endorse the transactions of `kv`. One ends a batch.
const GENESIS: &str =
    "{\"orgs\":[{\"name\":\"A\",\"key\":\"4a656665\"}],\"peers\":[\"A\"],\"seats\":2,\"queue\":4,\"count\":1,\"preferred\":65536,\"absolute\":524288,\"reorder\":false,\"chaincodes\":[{\"name\":\"kv\",\"module\":\"0061736d01000000010d0260047f7f7f7f017f6000017f02140106666162726963097075745f73746174650000030201010503010001070a0106696e766f6b6500010a11010f00410041014101410110001a41000b0b08010041000b026131\",\"policy\":\"'A'\",\"fuel\":71,\"profile\":1}],\"modules\":[],\"upgrade\":\"'A'\"}";

/// A log of a transaction of `kv` that A has endorsed, and of a tick.
const LOG: &str =
    "log 0 026b760000000000000000000000000000000000010000000103006b760000000001016101000131010141fc9c4cc086491b2d8e1c442934edf9f9cc52d0868bfcadd139696ef9f89366f8\nlog 1 tick\n";

/// What a peer without a store prints of that log.
const TOLD: &str =
    "height 0\ntx 1.0 75ff0957e5f77a00e5d46a2135c116f550fc6ccf86b03a3d5ca711d08abd0534 0 -\ncommitted 1 flags 0\nread 0 0\nread 1 0\n";

/// What it prints of the same log once more: its store has the block.
const TOLD_AGAIN: &str = "height 1\nknown 1\nread 0 0\nread 1 0\n";

/// What a peer prints of the log, which it stores under the name `store`. None where it is refused.
fn told<T: Threads + Sync>(
    workers: &Workers<'_, T>,
    alloc: Global,
    files: &mut MemoryFiles,
    log: &LogGenesis,
) -> Result<Option<Vec<u8>>, Fail> {
    files.input = LOG.as_bytes().to_vec(alloc)?;
    let asked = Peering {
        org: None,
        store: "store",
    };
    let mut text = Vec::new(alloc);
    let mut out = Printer::new(alloc, &mut text)?;
    let is_done = peer(workers, alloc, files, log, &asked, &mut out).is_ok();
    drop(out);
    Ok(is_done.then_some(text))
}

/// The bytes of the file of a name. None where there is no such file.
fn bytes_of(alloc: Global, files: &mut MemoryFiles, name: &str) -> Option<Vec<u8>> {
    let mut file = files.open(name)?;
    let mut bytes = Vec::new(alloc);
    file.read_to_end(&mut bytes).ok()?;
    Some(bytes)
}

/// Whether a peer printed this text.
fn is_told(told: &Option<Vec<u8>>, text: &str) -> bool {
    match told {
        Some(told) => told.as_slice() == text.as_bytes(),
        None => false,
    }
}

#[test]
fn a_peer_keeps_the_store_that_it_makes(rt: HostRuntime) -> Result<(), Fail> {
    let alloc = rt.alloc();
    let workers = Workers::new(&rt, 1);
    let log = LogGenesis {
        genesis: genesis(alloc, GENESIS)?,
        digest: [0; 32],
    };
    let mut files = MemoryFiles::new(alloc, Vec::new(alloc));
    let first = told(&workers, alloc, &mut files, &log)?;
    let stored = bytes_of(alloc, &mut files, "store");
    let second = told(&workers, alloc, &mut files, &log)?;
    let is_kept = stored.is_some() && bytes_of(alloc, &mut files, "store") == stored;
    assert!(rt; is_told(&first, TOLD) && is_told(&second, TOLD_AGAIN) && is_kept);
    Ok(())
}
