//! Tests of the ledger's crates, a file for each subject. There is no code beside them.
//!
//! What can be said as data (bytes, batches, their order, chains with their flags, chains that do
//! not fit, calls of the host and of chaincode, with their answers) is a line of `ledger_cases` or
//! of `test/cases`. What stands here is what no line can say: calls that no line makes, threads and
//! devices that fail. It stands above the crates that it tests, since a crate with tests is proved a
//! second time together with them.
#![tactic(auto)]

#[cfg(test)]
mod batch_cutter_test;
#[cfg(test)]
mod block_store_test;
#[cfg(test)]
mod checkpoint_test;
#[cfg(test)]
mod concurrent_reads_test;
#[cfg(test)]
mod endorsement_policy_test;
#[cfg(test)]
mod fabric_core_test;
#[cfg(test)]
mod growths_test;
#[cfg(test)]
mod kept_state_test;
#[cfg(test)]
mod memory_files_test;
#[cfg(test)]
mod orderer_test;
#[cfg(test)]
mod peer_node_test;
#[cfg(test)]
mod peer_test;
#[cfg(test)]
mod persist_map_test;
#[cfg(test)]
mod refusals_test;
#[cfg(test)]
mod reopen_test;
#[cfg(test)]
mod samples;
#[cfg(test)]
mod seq_test;
#[cfg(test)]
mod snapshot_cell_test;
#[cfg(test)]
mod world_state_test;
