//! The simulation of a proposal, and its rerun.

ghost use Rattle.std.specs.Prelude.{◌≡◌, ◌≤◌, IfOk, length, true};
ghost use Rattle.std.specs.FinMap.{get};
ghost use Rattle.std.specs.List.{list_all};
ghost use Rattle.fab_types.specs.Order.{is_shown};
ghost use Rattle.fab_types.specs.declared.proposal.Proposal.TheVariants as proposals;
ghost use Rattle.ledger_model.specs.Chain.{history};
ghost use Rattle.ledger_model.specs.State.{state};
ghost use Rattle.ledger_model.specs.Views.{values_of};
ghost use Rattle.ledger_model.specs.Execution.{Done};
ghost use Rattle.ledger_model.specs.Defined.{upgraded};
ghost use Rattle.fab_types.specs.Memberships.{membership_key};
ghost use Rattle.fab_types.specs.Spelling.{definition_bytes, membership_bytes};
ghost use Rattle.endorsement_policy.specs.Membership.{is_next};
ghost use Rattle.world_state.specs.Writing.{as_state};
ghost use Rattle.host_api.specs.Plain.{plain_of};
ghost use Rattle.host_api.specs.Parts.{parts_of};
ghost use Rattle.host_api.specs.Executing.{outcome};
ghost use Rattle.simulator.specs.Execution.{HasBadPolicy, IsNotAtHand, IsNotNext, IsUnknown, exec_of, given_by, is_at_hand};
ghost use Rattle.simulator.specs.Answers.{Answers, IsToldWhere, done_or_refusal, parts_or_refusal, payload_in, payload_or_refusal, rerun_or_refusal, told_in};
ghost use Rattle.simulator.specs.Success.{success_of};
ghost use Rattle.simulator.specs.declared.refusal.SimRefusal.TheVariants.{UnknownChaincode, NotInstalled, BadPolicy, BadMembership};

use crate::executable::{Executable, Found, find_executable};
use crate::refusal::SimRefusal;
use chaincode_book::Book;
use endorsement_policy::{ModuleId, is_next};
use fab_types::{
    Amend, Call, Definition, Edition, Key, Namespace, Payload, PayloadParts, Proposal, Ranges,
    ReadItem, ReadSet, Upgrade, Value, WriteItem, WriteSet,
};
use host_api::{Given, Parts, PlainMap, Recorder, View, look_up};
use interp::{Outcome, run};
use std::alloc::{AllocError, Global};
use wire::{encode_definition, encode_membership};
use world_state::{Snapshot, StateMap};

/// The payload of a proposal on a snapshot's state. A call is executed once, on a fresh instance
/// and by the definition of its chaincode: its payload has the read of the definition's key in
/// front. An upgrade's payload reads that key and puts the new definition there, an amendment's
/// reads the key of the membership and puts the new one there. What was read has the versions of
/// that state.
///
/// A call is refused where its chaincode has no definition that can be used (401) or an open one
/// whose module is not at hand (406), where the execution traps (402), runs out of fuel (403) or
/// returns a status that is not 0 (404); an upgrade where its module is not installed, or not at
/// hand if it is open (406), or its policy is refused (407); an amendment where its membership is
/// not the next, or cannot be used (408); and each for want of memory (9).
pub fn simulate(
    alloc: Global,
    book: &Book,
    snapshot: &Snapshot,
    proposal: &Proposal,
) -> Result<Payload, SimRefusal>
    ensures answer { Answers (payload_or_refusal (exec_of book.now) proposal.now snapshot.now)
        result }
    ensures unknown { IsToldWhere UnknownChaincode
        (IsUnknown book.now (values_of (state (history snapshot.now))) proposal.now) result }
    ensures not_installed { IsToldWhere NotInstalled
        (IsNotAtHand book.now (values_of (state (history snapshot.now))) proposal.now) result }
    ensures bad_policy { IsToldWhere BadPolicy (HasBadPolicy book.now proposal.now) result }
    ensures bad_membership { IsToldWhere BadMembership
        (IsNotNext book.now (values_of (state (history snapshot.now))) proposal.now) result }
{
    simulate_in(alloc, book, snapshot.map(), proposal)
}

/// The payload of a proposal on a state, as `simulate` answers it on a snapshot's.
pub fn simulate_in(
    alloc: Global,
    book: &Book,
    state: &StateMap,
    proposal: &Proposal,
) -> Result<Payload, SimRefusal>
    ensures answer { Answers
        (payload_in (exec_of book.now) proposal.now (as_state state.now.entries)) result }
    ensures unknown { IsToldWhere UnknownChaincode
        (IsUnknown book.now (values_of (as_state state.now.entries)) proposal.now) result }
    ensures not_installed { IsToldWhere NotInstalled
        (IsNotAtHand book.now (values_of (as_state state.now.entries)) proposal.now) result }
    ensures bad_policy { IsToldWhere BadPolicy (HasBadPolicy book.now proposal.now) result }
    ensures bad_membership { IsToldWhere BadMembership
        (IsNotNext book.now (values_of (as_state state.now.entries)) proposal.now) result }
{
    let _valid = book.chaincodes();
    let parts = execute(alloc, book, state, proposal)?;
    let whole = PayloadParts {
        proposal: proposal.clone()?,
        result: parts.result,
        reads: parts.reads,
        ranges: parts.ranges,
        writes: parts.writes,
    };
    Ok(Payload::new(alloc, whole)?)
}

/// What the execution of a proposal on a plain state reads, answers and writes. The versions in it
/// are those of the state as a view, and say no more than that a key was there.
///
/// Refused as `simulate`.
pub fn rerun(
    alloc: Global,
    book: &Book,
    state: &PlainMap,
    proposal: &Proposal,
) -> Result<Parts, SimRefusal>
    ensures told { Answers (rerun_or_refusal (exec_of book.now proposal.now (plain_of state.now)))
        (told_in result) }
    ensures recorded { let o = exec_of book.now proposal.now (plain_of state.now) in Answers
        (done_or_refusal o.ending (parts_of (as_state state.now) o.seen)) result }
    ensures unknown { IsToldWhere UnknownChaincode
        (IsUnknown book.now (plain_of state.now) proposal.now) result }
    ensures not_installed { IsToldWhere NotInstalled
        (IsNotAtHand book.now (plain_of state.now) proposal.now) result }
    ensures bad_policy { IsToldWhere BadPolicy (HasBadPolicy book.now proposal.now) result }
    ensures bad_membership { IsToldWhere BadMembership
        (IsNotNext book.now (plain_of state.now) proposal.now) result }
{
    let _valid = book.chaincodes();
    execute(alloc, book, state, proposal)
}

/// What the execution of a proposal on a view of the state reads, answers and writes.
#[tactic(auto, unfolding(crate::specs::Execution::exec_of))]
fn execute<V: View>(
    alloc: Global,
    book: &Book,
    view: &V,
    proposal: &Proposal,
) -> Result<Parts, SimRefusal>
    ensures { Answers (parts_or_refusal (exec_of book.now proposal.now) (V.state view.now)) result }
{
    match proposal {
        Proposal::Call(call) => execute_call(alloc, book, view, call),
        Proposal::Upgrade(upgrade) => execute_upgrade(alloc, book, view, upgrade),
        Proposal::Amend(amend) => execute_amend(alloc, book, view, amend),
    }
}

/// The same of a call. The read of its definition stands in front of what chaincode reads.
fn execute_call<V: View>(
    alloc: Global,
    book: &Book,
    view: &V,
    call: &Call,
) -> Result<Parts, SimRefusal>
    ensures { Answers
        (parts_or_refusal (exec_of book.now (proposals.Call call.now)) (V.state view.now)) result }
{
    let key = Key::of_definition(&call.chaincode);
    let (value, version) = look_up(view, &key);
    let executable = match find_executable(alloc, book, &call.chaincode, value)? {
        None => return Err(SimRefusal::UnknownChaincode),
        Some(Found::NotAtHand) => return Err(SimRefusal::NotInstalled),
        Some(Found::AtHand(executable)) => executable,
    };
    let given = given_by(book.edition(), call);
    let parts = run_executable(alloc, &executable, view, given)?;
    let reads = parts.reads.with_first(ReadItem { key, version })?;
    Ok(Parts {
        reads,
        ranges: parts.ranges,
        result: parts.result,
        writes: parts.writes,
    })
}

/// What the execution of a call is given under an edition of the rules.
pub fn given_by(edition: Edition, call: &Call) -> Given<'_>
    ensures { result ≡ given_by edition call.now }
{
    Given::new(&call.argument, Namespace::of(edition, &call.chaincode))
}

/// What chaincode reads, answers and writes. It reads at most 256 keys, and none of a definition.
fn run_executable<V: View>(
    alloc: Global,
    executable: &Executable<'_>,
    view: &V,
    given: Given<'_>,
) -> Result<Parts, SimRefusal>
    ensures answer { Answers
        (parts_or_refusal (outcome executable.now.module.now executable.now.fuel given.entry)
        (V.state view.now)) result }
    ensures shown { IfOk result (λ p. list_all (λ i. is_shown i.key) p.reads ≡ true) }
    ensures count { IfOk result (λ p. length p.reads ≤ 256) }
{
    let mut recorder = Recorder::new(alloc, view, given);
    let outcome = run(alloc, executable.module, &mut recorder, executable.fuel)?;
    succeed(outcome)?;
    Ok(recorder.into_parts())
}

/// Refuses an execution that did not return status 0.
fn succeed(outcome: Outcome) -> Result<(), SimRefusal>
    ensures { result ≡ success_of outcome }
{
    match outcome {
        Outcome::Returned { status: 0, .. } => Ok(()),
        Outcome::Returned { status, .. } => Err(SimRefusal::Status(status)),
        Outcome::Trapped { kind, used } => Err(SimRefusal::Trapped { kind, used }),
        Outcome::Spent => Err(SimRefusal::Spent),
    }
}

/// What the execution of an upgrade reads, answers and writes.
#[tactic(auto, unfolding(crate::specs::Execution::exec_of))]
fn execute_upgrade<V: View>(
    alloc: Global,
    book: &Book,
    view: &V,
    upgrade: &Upgrade,
) -> Result<Parts, SimRefusal>
    ensures { Answers
        (parts_or_refusal (exec_of book.now (proposals.Upgrade upgrade.now)) (V.state view.now))
        result }
{
    if !is_at_hand(book, &upgrade.definition) {
        return Err(SimRefusal::NotInstalled);
    }
    let _usable = book.installed().usable(alloc, &upgrade.definition)??;
    let value = definition_value(alloc, upgrade)?;
    Ok(put(alloc, view, Key::of_definition(&upgrade.chaincode), value)?)
}

/// The same of an amendment.
#[tactic(auto, unfolding(crate::specs::Execution::exec_of))]
fn execute_amend<V: View>(
    alloc: Global,
    book: &Book,
    view: &V,
    amend: &Amend,
) -> Result<Parts, SimRefusal>
    ensures { Answers
        (parts_or_refusal (exec_of book.now (proposals.Amend amend.now)) (V.state view.now))
        result }
{
    if !is_next_on(alloc, book, view, amend)? {
        return Err(SimRefusal::BadMembership);
    }
    let value = membership_value(alloc, amend)?;
    Ok(put(alloc, view, Key::of_membership(), value)?)
}

/// Whether the membership of an amendment may come next on a view of the state.
fn is_next_on<V: View>(
    alloc: Global,
    book: &Book,
    view: &V,
    amend: &Amend,
) -> Result<bool, AllocError>
    ensures { IfOk result (λ b. b
        ≡ is_next book.now.installed.orgs (get (values_of (V.state view.now)) membership_key)
        amend.now.membership) }
{
    let key = Key::of_membership();
    let (value, _) = look_up(view, &key);
    is_next(
        alloc,
        book.installed().organisations(),
        value,
        &amend.membership,
    )
}

/// Whether the module of a definition is at hand, if it is open.
pub fn is_at_hand(book: &Book, definition: &Definition) -> bool
    ensures { result ≡ is_at_hand book.now definition.now }
{
    !definition.is_open || book.at_hand(&ModuleId::of(definition)).is_some()
}

/// What is read and written where a value is put at a key, which is read.
fn put<V: View>(alloc: Global, view: &V, key: Key, value: Value) -> Result<Parts, AllocError>
    ensures { IfOk result
        (λ p. p
        ≡ parts_of (V.state view.now)
        (upgraded key value Done (values_of (V.state view.now))).seen) }
{
    let (_, version) = look_up(view, &key);
    let write = WriteItem {
        key: key.clone()?,
        value: Some(value),
    };
    let reads = vec![in alloc; ReadItem { key, version }]?;
    let writes = vec![in alloc; write]?;
    Ok(Parts {
        reads: ReadSet::new(reads).unwrap(),
        ranges: Ranges::new(Vec::new(alloc)).unwrap(),
        result: Value::new(Vec::new(alloc)).unwrap(),
        writes: WriteSet::new(writes).unwrap(),
    })
}

/// The bytes of an upgrade's definition: at most 1,063.
fn definition_value(alloc: Global, upgrade: &Upgrade) -> Result<Value, AllocError>
    ensures { IfOk result (λ v. v ≡ definition_bytes upgrade.now.definition) }
{
    let bytes = encode_definition(alloc, &upgrade.definition)?;
    Ok(Value::new(bytes).unwrap())
}

/// The bytes of an amendment's membership: at most 2,088.
fn membership_value(alloc: Global, amend: &Amend) -> Result<Value, AllocError>
    ensures { IfOk result (λ v. v ≡ membership_bytes amend.now.membership) }
{
    let bytes = encode_membership(alloc, &amend.membership)?;
    Ok(Value::new(bytes).unwrap())
}
