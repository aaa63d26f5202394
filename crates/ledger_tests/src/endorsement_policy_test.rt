//! Checks of envelopes by several workers.

use crate::samples::{PUBLIC, SEED, TWO_OF_THREE, genesis};
use ed25519::sign;
use endorsement_policy::{Gate, Rules, Workers, check_all, check_plain};
use fab_types::Envelope;
use hmac_tag::tag;
use std::alloc::{AllocError, Global};
use std::sync::atomic::{AtomicBool, AtomicUsize, Ordering};
use std::test::Fail;
use std::thread;
use std::thread::Threads;
use wire::decode_envelope;
use world_state::Snapshot;

/// The bytes of a call of `kv` without an argument, which reads its definition as absent and writes
/// nothing, and two endorsements by `A`: one under its own key, whose tag is that of another
/// program, and one with a tag of zeros.
const CALL: [u8; 103] =
    *b"\x02kv\x00\x00\x00\x00\x00\x00\x00\x00\x00\x00\x00\x00\x00\x00\x00\x00\x00\x00\x00\x00\x00\x01\x03\x00kv\x00\x00\x00\x00\x00\x02\x01A\x6e\x4b\x9d\x54\xb4\xe8\x7e\x4b\x99\xa6\xf7\xdf\xe3\x62\x05\x46\x82\xc1\x6c\x3e\xaf\xf4\x09\x0e\xc7\x73\xa7\xfe\xba\x73\x07\x5e\x01A\x00\x00\x00\x00\x00\x00\x00\x00\x00\x00\x00\x00\x00\x00\x00\x00\x00\x00\x00\x00\x00\x00\x00\x00\x00\x00\x00\x00\x00\x00\x00\x00";

/// How many of them are the payload's.
const PAYLOAD: usize = 34;

/// Where the name and the tag of the second endorsement begin.
const NAME: usize = 70;

const TAG: usize = 71;

/// The length of a call whose second endorsement is a signature, behind the byte 00.
const SIGNED: usize = 136;

/// The call with endorsements by A under its own key, and by a name with the HMAC under a key.
fn keyed(alloc: Global, name: u8, key: &[u8]) -> Option<Envelope> {
    let mut bytes = CALL;
    let tag = tag(key, &CALL[..PAYLOAD]);
    bytes[NAME] = name;
    bytes[TAG..].copy_from_slice(&tag);
    decode_envelope(alloc, &bytes).ok()
}

/// The call with endorsements by A under its own key, and by a name with the signature by a seed.
fn signed(alloc: Global, name: u8, seed: &[u8; 32]) -> Option<Envelope> {
    let mut bytes = [0; SIGNED];
    bytes[..NAME - 1].copy_from_slice(&CALL[..NAME - 1]);
    bytes[NAME] = 1;
    bytes[NAME + 1] = name;
    bytes[NAME + 2..].copy_from_slice(&sign(seed, &CALL[..PAYLOAD]));
    decode_envelope(alloc, &bytes).ok()
}

/// The eight, of which the first and the fifth satisfy the policy: B's HMAC; one more of A; that of
/// B under A's key; that of an unknown organisation; C's signature; one of another seed; C's, by the
/// name of B; and an HMAC under C's public key, which everybody knows.
fn nth(alloc: Global, index: usize) -> Option<Envelope> {
    match index % 8 {
        0 => keyed(alloc, b'B', b"B\0B"),
        1 => keyed(alloc, b'A', b"A\0A"),
        2 => keyed(alloc, b'B', b"A\0A"),
        3 => keyed(alloc, b'D', b"D\0D"),
        4 => signed(alloc, b'C', &SEED),
        5 => signed(alloc, b'C', &PUBLIC),
        6 => signed(alloc, b'B', &SEED),
        _ => keyed(alloc, b'C', &PUBLIC),
    }
}

/// The eight again and again.
fn add_envelopes(alloc: Global, envelopes: &mut Vec<Envelope>, count: usize) -> Option<()> {
    for index in 0..count {
        envelopes.push(nth(alloc, index)?).ok()?;
    }
    Some(())
}

fn is_first_of_four(answers: &[bool]) -> bool {
    let mut is_each = true;
    for (place, answer) in answers.iter().enumerate() {
        is_each &= *answer == (place % 4 == 0);
    }
    is_each
}

/// Nothing is done round a check.
#[derive(Drop)]
pub struct Open;

impl Gate for Open {
    fn before(&self, _index: usize) {}

    fn after(&self, _index: usize) {}
}

/// Whether 1, 2 and 16 workers answer as one thread does.
fn is_same_by_workers<R: Threads + Sync>(
    rt: &R,
    alloc: Global,
    rules: &Rules,
    snapshot: &Snapshot,
    envelopes: &[Envelope],
) -> Result<bool, AllocError> {
    let plain = check_plain(alloc, rules, snapshot, envelopes)?;
    let mut are_same = true;
    for count in [1, 2, 16] {
        let workers = Workers::new(rt, count);
        are_same &= check_all(&workers, alloc, rules, snapshot, envelopes, &Open)? == plain;
    }
    Ok(are_same && plain.len() == envelopes.len() && is_first_of_four(&plain))
}

/// The answers over no envelope, one and all of these.
fn are_same<R: Threads + Sync>(
    rt: &R,
    alloc: Global,
    rules: &Rules,
    snapshot: &Snapshot,
    envelopes: &[Envelope],
) -> Result<bool, AllocError> {
    let one = envelopes.get(..1).unwrap_or(&[]);
    let are = is_same_by_workers(rt, alloc, rules, snapshot, &[])?
        && is_same_by_workers(rt, alloc, rules, snapshot, one)?
        && is_same_by_workers(rt, alloc, rules, snapshot, envelopes)?;
    Ok(are)
}

/// Two checks, each of which waits for the other.
#[derive(Drop)]
struct Meeting {
    came: [AtomicBool; 2],
    met: [AtomicBool; 2],
}

impl Gate for Meeting {
    fn before(&self, index: usize) {
        self.came[index % 2].store(true, Ordering::SeqCst);
        for _ in 0..10_000_000 {
            if self.came[1 - index % 2].load(Ordering::SeqCst) {
                self.met[index % 2].store(true, Ordering::SeqCst);
                return;
            }
            thread::yield_now();
        }
    }

    fn after(&self, _index: usize) {}
}

/// Whether two workers with an envelope each were both at their gate at once.
fn is_met<R: Threads + Sync>(
    rt: &R,
    alloc: Global,
    rules: &Rules,
    snapshot: &Snapshot,
    pair: &[Envelope],
) -> Result<bool, AllocError> {
    let meeting = Meeting {
        came: [AtomicBool::new(false), AtomicBool::new(false)],
        met: [AtomicBool::new(false), AtomicBool::new(false)],
    };
    let workers = Workers::new(rt, 2);
    let answers = check_all(&workers, alloc, rules, snapshot, pair, &meeting)?;
    let met = meeting.met[0].load(Ordering::SeqCst) && meeting.met[1].load(Ordering::SeqCst);
    Ok(met && is_first_of_four(&answers))
}

/// The place that each of two workers is to check next, and how often either went elsewhere.
#[derive(Drop)]
struct Turns {
    next: [AtomicUsize; 2],
    strayed: AtomicUsize,
}

impl Gate for Turns {
    fn before(&self, index: usize) {
        if self.next[index % 2].load(Ordering::SeqCst) != index {
            self.strayed.fetch_add(1, Ordering::SeqCst);
        }
    }

    fn after(&self, index: usize) {
        self.next[index % 2].store(index.wrapping_add(2), Ordering::SeqCst);
    }
}

/// Whether two workers check the even and the odd places, in order.
fn is_in_turn<R: Threads + Sync>(
    rt: &R,
    alloc: Global,
    rules: &Rules,
    snapshot: &Snapshot,
    envelopes: &[Envelope],
) -> Result<bool, AllocError> {
    let turns = Turns {
        next: [AtomicUsize::new(0), AtomicUsize::new(1)],
        strayed: AtomicUsize::new(0),
    };
    let workers = Workers::new(rt, 2);
    let _answers = check_all(&workers, alloc, rules, snapshot, envelopes, &turns)?;
    let even = turns.next[0].load(Ordering::SeqCst);
    let odd = turns.next[1].load(Ordering::SeqCst);
    Ok(even == 6 && odd == 5 && turns.strayed.load(Ordering::SeqCst) == 0)
}

/// What several workers answer and do on these envelopes.
fn are_right<R: Threads + Sync>(
    rt: &R,
    alloc: Global,
    rules: &Rules,
    snapshot: &Snapshot,
    all: &[Envelope],
) -> Result<bool, AllocError> {
    let are_same = are_same(rt, alloc, rules, snapshot, all)?;
    let is_met = is_met(rt, alloc, rules, snapshot, all.get(..2).unwrap_or(&[]))?;
    let is_in_turn = is_in_turn(rt, alloc, rules, snapshot, all.get(..5).unwrap_or(&[]))?;
    Ok(are_same && is_met && is_in_turn)
}

fn workers_are_right<R: Threads + Sync>(rt: &R, alloc: Global, rules: &Rules) -> Option<bool> {
    let mut all = Vec::new(alloc);
    add_envelopes(alloc, &mut all, 33)?;
    are_right(rt, alloc, rules, &Snapshot::empty(alloc), &all).ok()
}

#[test]
fn workers_answer_as_one_thread(rt: HostRuntime) -> Result<(), Fail> {
    let alloc = rt.alloc();
    let are_right = workers_are_right(&rt, alloc, &genesis(alloc, TWO_OF_THREE)?.rules);
    assert!(rt; are_right == Some(true));
    Ok(())
}
