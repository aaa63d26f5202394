//! The command `sim`.

ghost use Rattle.std.specs.Prelude.{◌≡◌, option_map};
ghost use Rattle.cli_lines.specs.Told.{Answers, Begins, IsTextOf, Tells};
ghost use Rattle.cli_show.specs.Answers.{UnlessFault, block_fault};
ghost use Rattle.kept_state.specs.Keeping.{IsKept, chain_of};
ghost use Rattle.cli_show.specs.Simulations.{Simulates, SimulatesOn};

use crate::explaining::explain_chain;
use crate::replaying::replayed;
use crate::showing::chain_fault;
use cli_lines::{Failure, Files, Printer, print_payload};
use endorsement_policy::Workers;
use fab_types::Proposal;
use kept_state::KeptChain;
use ledger_setting::Genesis;
use std::alloc::Global;
use std::io::Write;
use std::thread::Threads;
use store_replay::{Replayed, Unheld};
use world_state::Past;

/// What `sim` is asked for: this call, on the state after the store in the file of a name, or on the
/// empty state.
#[derive(Clone, Copy)]
pub struct Simulated<'a> {
    pub proposal: &'a Proposal,
    pub store: Option<&'a str>,
}

/// Simulates a call, and prints its transaction.
///
/// Refused where a block of the store does not fit (601 to 604), where the store does not end with
/// its last record (701 to 703), and where the simulation is. Flags that the store has are passed
/// over.
pub fn simulate<T: Threads + Sync, F: Files, W: Write>(
    workers: &Workers<'_, T>,
    alloc: Global,
    files: &mut F,
    genesis: &Genesis,
    simulated: &Simulated<'_>,
    out: &mut Printer<'_, W>,
) -> Result<(), Failure>
    ensures tells { Tells out.old out.new result }
    ensures answers { Answers
        (Simulates genesis.now simulated.now.proposal.now
        (option_map (λ name. F.bytes files.old name.now) simulated.now.store)) out.old out.new
        result }
    ensures begins { Begins
        (IsTextOf (Simulates genesis.now simulated.now.proposal.now
        (option_map (λ name. F.bytes files.old name.now) simulated.now.store))) out.old out.new
        result }
    ensures kept { F.bytes files.new ≡ F.bytes files.old }
{
    let proposal = simulated.proposal;
    match simulated.store {
        None => {
            let empty = KeptChain::empty(alloc);
            print_call(alloc, genesis, &empty, proposal, out)
        }
        Some(name) => {
            let (replayed, _) = replayed(workers, alloc, files, genesis, name, Unheld)?;
            explain_chain(alloc, files, name, &replayed);
            print_call_after(alloc, genesis, &replayed, proposal, out)
        }
    }
}

/// Simulates a call on the state after a whole store.
fn print_call_after<W: Write>(
    alloc: Global,
    genesis: &Genesis,
    replayed: &Replayed,
    proposal: &Proposal,
    out: &mut Printer<'_, W>,
) -> Result<(), Failure>
    requires kept { IsKept replayed.now.chain }
    ensures tells { Tells out.old out.new result }
    ensures answers { Answers
        (UnlessFault (block_fault replayed.now.refused replayed.now.end)
        (SimulatesOn genesis.now proposal.now (chain_of replayed.now.chain))) out.old out.new
        result }
    ensures begins { Begins
        (IsTextOf (UnlessFault (block_fault replayed.now.refused replayed.now.end)
        (SimulatesOn genesis.now proposal.now (chain_of replayed.now.chain)))) out.old out.new
        result }
{
    match chain_fault(replayed) {
        Some(failure) => Err(failure),
        None => print_call(alloc, genesis, &replayed.chain, proposal, out),
    }
}

/// Simulates a call on the state after a chain.
fn print_call<W: Write>(
    alloc: Global,
    genesis: &Genesis,
    chain: &KeptChain,
    proposal: &Proposal,
    out: &mut Printer<'_, W>,
) -> Result<(), Failure>
    requires kept { IsKept chain.now }
    ensures tells { Tells out.old out.new result }
    ensures answers { Answers (SimulatesOn genesis.now proposal.now (chain_of chain.now)) out.old
        out.new result }
    ensures begins { Begins (IsTextOf (SimulatesOn genesis.now proposal.now (chain_of chain.now)))
        out.old out.new result }
{
    let payload = simulator::simulate_in(alloc, &*genesis.book, chain.map(), proposal)?;
    print_payload(alloc, &payload, out)
}
