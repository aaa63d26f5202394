//! The chain of a store.

ghost use Rattle.std.specs.Prelude.{◌≡◌, [], IfErr, IfOk};
ghost use Rattle.kept_state.specs.Keeping.{chain_of};
ghost use Rattle.ledger_setting.specs.Rule.{table_of};
ghost use Rattle.store_replay.specs.Replay.{ReplaysFrom};
ghost use Rattle.cli_lines.specs.Told.{IsBrokenOff, IsSilent};

use cli_lines::{Access, Failure, Files, explain_trouble};
use endorsement_policy::Workers;
use ledger_setting::Genesis;
use std::alloc::Global;
use std::thread::Threads;
use store_devices::Counted;
use store_replay::{BlockSink, Replayed, TagChecks, replay_store};

/// The chain of a store, committed again, whose blocks a sink takes. Refused where the file cannot be
/// opened, and for want of memory.
pub(crate) fn replayed<T: Threads + Sync, F: Files, S: BlockSink + Drop>(
    workers: &Workers<'_, T>,
    alloc: Global,
    files: &mut F,
    genesis: &Genesis,
    name: &str,
    sink: S,
) -> Result<(Replayed, S), Failure>
    requires none { S.Took sink [] }
    ensures silent { IfErr result IsSilent }
    ensures lost { IfErr result IsBrokenOff }
    ensures replayed { IfOk result
        (λ p. ReplaysFrom (table_of genesis.now.rules.value) (F.bytes files.old name.now) p.0) }
    ensures took { IfOk result (λ p. S.Took p.1 (chain_of p.0.chain)) }
    ensures context { IfOk result (λ p. S.context p.1 ≡ S.context sink) }
    ensures kept { F.bytes files.new ≡ F.bytes files.old }
{
    let Some(reader) = files.open(name) else {
        explain_trouble(alloc, files, name, Access::Read);
        return Err(Failure::File);
    };
    let mut device = Counted::new(reader);
    let watch = files.watch();
    let tags = TagChecks::new(workers, &watch);
    Ok(replay_store(&tags, alloc, genesis, &mut device, sink)?)
}
