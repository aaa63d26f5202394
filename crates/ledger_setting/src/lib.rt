//! What the peers of a ledger go by: what a system begins with, the rule by which they judge, and
//! the commit of a block under it. And what an audit of a chain says, and by whom members are made.
#![tactic(auto)]

mod genesis;
mod judging;
mod laws;
mod verdict;

pub use genesis::Genesis;
pub use judging::{
    check_by_workers, commit, commit_by_workers, judge, judge_behind, judge_behind_by_workers,
    judge_by_workers, judge_checked, judge_with, judge_with_behind,
};
pub use laws::{
    a_block_changes_a_key_once, definitions_are_upgraded, keys_are_put_by_their_chaincode,
    memberships_are_amended,
};
pub use verdict::Audit;
