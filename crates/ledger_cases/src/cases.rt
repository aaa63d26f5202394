//! Lines, and the verb that each begins with.

use crate::bytes::{split_fuel, split_word};
use crate::calls::call_host;
use crate::chains::{judge_chain, show_key, show_range, show_state};
use crate::decoding::{Kind, show_hashes, show_id, show_tag, show_value};
use crate::event_lines::event_line;
use crate::fault::CaseFault;
use crate::genesis_files::{genesis_file, modules_file};
use crate::hosts::answer_of;
use crate::items::{read_items, show_position};
use crate::modules::{Look, ask_module, show_module};
use crate::operators::apply_operator;
use crate::policies::{show_endorsed, show_policy, show_satisfied};
use crate::runs::Question;
use crate::signatures::ask_key;
use crate::simulations::simulate_calls;
use crate::tags::show_bound;
use fab_types::Edition;
use std::alloc::Global;
use wasm_profile::Profile;
use world_state::Snapshot;

/// The case of a line, without the note behind it.
pub fn without_note(line: &str) -> &str {
    match line.split_once(" #") {
        Some((case, _)) => case,
        None => line,
    }
}

/// What a case gives.
pub fn answer_case(alloc: Global, line: &str) -> Result<String, CaseFault> {
    let (verb, rest) = split_word(line);
    match verb {
        "under" => answer_under(alloc, rest),
        _ => answer_ruled(alloc, Edition::First, verb, rest),
    }
}

/// What a case gives behind the number of an edition of the rules.
fn answer_under(alloc: Global, text: &str) -> Result<String, CaseFault> {
    let (number, case) = split_word(text);
    let edition = match number {
        "1" => Edition::First,
        "2" => Edition::Second,
        _ => return Err(CaseFault::BadLine),
    };
    let (verb, rest) = split_word(case);
    answer_ruled(alloc, edition, verb, rest)
}

/// What a case gives under an edition of the rules.
fn answer_ruled(
    alloc: Global,
    edition: Edition,
    verb: &str,
    rest: &str,
) -> Result<String, CaseFault> {
    match verb {
        "call" => call_host(alloc, edition, rest),
        _ => answer_on_state(alloc, edition, &mut Snapshot::empty(alloc), verb, rest),
    }
}

/// What a case gives, by its verb, of which some begin with this state without keys.
fn answer_on_state(
    alloc: Global,
    edition: Edition,
    snapshot: &mut Snapshot,
    verb: &str,
    rest: &str,
) -> Result<String, CaseFault> {
    match verb {
        "endorsed" => show_endorsed(alloc, edition, snapshot, rest),
        "flags" => judge_chain(alloc, edition, snapshot, rest),
        "state" => show_state(alloc, edition, snapshot, rest),
        "get" => show_key(alloc, edition, snapshot, rest),
        "range" => show_range(alloc, edition, snapshot, rest),
        "simulate" => simulate_calls(alloc, edition, snapshot, rest, Profile::Core1),
        "simulate2" => { simulate_calls(alloc, edition, snapshot, rest, Profile::SignExtension) }
        _ => answer_text(alloc, verb, rest),
    }
}

/// What a case of a text gives, by its verb, and else one of bytes.
fn answer_text(alloc: Global, verb: &str, rest: &str) -> Result<String, CaseFault> {
    match verb {
        "policy" => show_policy(alloc, rest),
        "satisfied" => show_satisfied(alloc, rest),
        "event" => Ok(event_line(alloc, rest)?),
        "genesis" => Ok(genesis_file(alloc, rest)?),
        "modules" => Ok(modules_file(alloc, rest)?),
        "by" => answer_by(alloc, rest),
        _ => answer_bytes(alloc, verb, rest),
    }
}

/// What a case of the ledger's bytes gives, by its verb, and else one of modules by profile 1.
fn answer_bytes(alloc: Global, verb: &str, pieces: &str) -> Result<String, CaseFault> {
    match verb {
        "payload" => show_value(alloc, Kind::Payload, pieces),
        "envelope" => show_value(alloc, Kind::Envelope, pieces),
        "block" => show_value(alloc, Kind::Block, pieces),
        "definition" => show_value(alloc, Kind::Definition, pieces),
        "membership" => show_value(alloc, Kind::Membership, pieces),
        "tx_id" => show_id(alloc, pieces),
        "hashes" => show_hashes(alloc, pieces),
        "tag" => show_tag(alloc, pieces),
        "bound" => show_bound(alloc, pieces),
        "public" | "sign" | "verify" | "small_order" | "key" => ask_key(alloc, verb, pieces),
        _ => answer_module(alloc, Profile::Core1, verb, pieces),
    }
}

/// What a case of modules gives behind the number of a profile.
fn answer_by(alloc: Global, text: &str) -> Result<String, CaseFault> {
    let (number, case) = split_word(text);
    let (verb, rest) = split_word(case);
    match number {
        "1" => answer_module(alloc, Profile::Core1, verb, rest),
        "2" => answer_module(alloc, Profile::SignExtension, verb, rest),
        _ => Err(CaseFault::BadLine),
    }
}

/// What a case of modules gives, by its verb.
fn answer_module(
    alloc: Global,
    profile: Profile,
    verb: &str,
    rest: &str,
) -> Result<String, CaseFault> {
    match verb {
        "items" => read_items(alloc, rest),
        "position" => show_position(alloc, rest),
        "decode" => show_module(alloc, Look::Counts, profile, rest),
        "show" => show_module(alloc, Look::Whole, profile, rest),
        "validate" | "run" | "trace" | "compare" | "answer" => {
            let (question, pieces) = question_of(verb, rest)?;
            ask_module(alloc, question, profile, pieces)
        }
        _ => apply_operator(alloc, verb, rest),
    }
}

/// What a verb asks about a valid module, and the bytes behind its words.
fn question_of<'a>(verb: &str, rest: &'a str) -> Result<(Question, &'a str), CaseFault> {
    if verb == "validate" {
        return Ok((Question::Parts, rest));
    }
    if verb == "answer" {
        let (word, rest) = split_word(rest);
        let (fuel, pieces) = split_fuel(rest)?;
        return Ok((Question::Answer(answer_of(word)?, fuel), pieces));
    }
    let (fuel, pieces) = split_fuel(rest)?;
    let question = match verb {
        "run" => Question::Run(fuel),
        "trace" => Question::Trace(fuel),
        _ => Question::Compare(fuel),
    };
    Ok((question, pieces))
}
