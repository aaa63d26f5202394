//! What `state` is asked for, as the blocks of a store are taken.

ghost use Rattle.std.specs.Prelude.{◌≡◌, [], string_bytes};
ghost use Rattle.cli_show.specs.Answers.{IsSought};

use crate::showing::{Asked, Part};
use crate::writes::push_writes;
use fab_types::CommittedBlock;
use persist_map::PMap;
use std::alloc::{AllocError, Global};
use store_replay::BlockSink;
use world_state::{StateMap, apply_block};

/// What is asked for of the state after the block of a number, of the blocks that were taken: the
/// state after those up to that number, or the lines of the writes in them.
#[derive(Drop)]
pub(crate) struct Sought<'a> {
    alloc: Global,
    pub(crate) asked: Asked<'a>,
    pub(crate) state: StateMap,
    pub(crate) writes: String,
}

impl<'a> Sought<'a> {
    /// Before the first block. It takes no memory.
    pub(crate) fn new(alloc: Global, asked: &Asked<'a>) -> Sought<'a>
        ensures none { IsSought result.asked.part result.asked.at result.state.entries
            (string_bytes result.writes) [] }
        ensures asked { result.asked ≡ asked.now }
    {
        Sought {
            alloc,
            asked: *asked,
            state: PMap::new(alloc),
            writes: String::new(alloc),
        }
    }
}

impl BlockSink for Sought<'_> {
    ghost use Rattle.std.specs.Prelude.{string_bytes};
    ghost use Rattle.cli_show.specs.Answers.{IsSought};
    ghost use Rattle.cli_show.specs.declared.showing.Asked.{Asked};

    ghost Context = { Asked };

    ghost context = { λ s. s.asked };

    ghost Took = { λ s chain. IsSought s.asked.part s.asked.at s.state.entries
        (string_bytes s.writes) chain };

    fn take(&mut self, committed: CommittedBlock) -> Result<(), AllocError> {
        let number = committed.block().header.number.get() as usize;
        if self.asked.at < number {
            return Ok(());
        }
        match self.asked.part {
            Part::Writes(key) => push_writes(self.alloc, &mut self.writes, &committed, key, number),
            Part::Entries | Part::Members => {
                apply_block(&mut self.state, committed.block(), committed.flags())
            }
        }
    }
}
