//! Commits of the orderer's blocks.

ghost use Rattle.std.specs.Prelude.{◌≡◌, ◌≤◌, [], ◌∷◌, ◌++◌, length, OnOk, OnErr};
ghost use Rattle.std.specs.Arc.{arc_value};
ghost use Rattle.wire.specs.Links.{AreLinked};
ghost use Rattle.committer.specs.Fits.{Fits, blocks_of};
ghost use Rattle.peer_node.specs.Writers.{published_chain, peer_of_writer, rules_of, next_by};
ghost use Rattle.seat_threads.specs.Chains.{IsFirstOf};

use committer::CommitRefusal;
use fab_types::Block;
use fab_types::limits::LAST_BLOCK;
use peer_node::PeerWriter;
use std::alloc::AllocError;
use std::sync::Wait;
use std::thread::Threads;

/// Commits those of the blocks that the peer does not have. The error is of memory.
pub fn commit_rest<R: Threads + Wait + Sync>(
    rt: &R,
    writer: &mut PeerWriter,
    blocks: &[Block],
) -> Result<(), AllocError>
    requires linked { AreLinked [] blocks.now }
    requires count { length blocks.now ≤ LAST_BLOCK }
    requires first { IsFirstOf (arc_value (rules_of writer.old)) blocks.now
        (published_chain writer.old) }
    ensures rules { rules_of writer.new ≡ rules_of writer.old }
    ensures peer { peer_of_writer writer.new ≡ peer_of_writer writer.old }
    ensures first { IsFirstOf (arc_value (rules_of writer.old)) blocks.now
        (published_chain writer.new) }
    ensures all { OnOk result (length (published_chain writer.new) ≡ length blocks.now) }
{
    for index in writer.newest().height()..blocks.len() {
        commit(rt, writer, &blocks[index])?;
    }
    Ok(())
}

/// Commits the next block. The error is of memory.
fn commit<R: Threads + Wait + Sync>(
    rt: &R,
    writer: &mut PeerWriter,
    block: &Block,
) -> Result<(), AllocError>
    requires { Fits (blocks_of (published_chain writer.old)) block.now }
    ensures rules { rules_of writer.new ≡ rules_of writer.old }
    ensures peer { peer_of_writer writer.new ≡ peer_of_writer writer.old }
    ensures committed { OnOk result
        (published_chain writer.new
        ≡ published_chain writer.old ++
        next_by (arc_value (rules_of writer.old)) (published_chain writer.old) block.now ∷ []) }
    ensures unchanged { OnErr result (published_chain writer.new ≡ published_chain writer.old) }
{
    match writer.commit(rt, block.clone()?) {
        Ok(_) => Ok(()),
        Err(refusal) => {
            prove!(matches!(refusal, CommitRefusal::Memory));
            Err(AllocError)
        }
    }
}
