//! Why a line is skipped or refused, or a store ends the run, in words on the standard error.

ghost use Rattle.std.specs.Prelude.{◌≡◌};

use crate::marks::leaves_genesis_open;
use cli_lines::{
    Files, Location, TAKE_AGAIN, block_words, explain, explain_bad_line, explain_number,
    explain_numbered, flags_words, simulation_words,
};
use json_reasons::{proposal_reason, question_reason};
use log_committer::ReceiveRefusal;
use log_orderer::Skip;
use log_peer::StoreRefusal;
use peer_answers::{Answer, CallRefusal, Request, number_in};
use std::alloc::{AllocError, Global};
use store_devices::BlockFault;
use store_replay::RecommitRefusal;

/// What is wrong with a text that is no mark.
const NO_MARK: &str = "it is neither tick nor an envelope in hex";

/// What is wrong where a store fails.
const NOT_WRITTEN: &str = "it was not read or written to its end; see whether the disk is full";

/// What is wrong with a block of which the store has another.
const FORKED: &str = "is another one than the store's; the store is of another log";

/// What is wrong with a line that is none of a peer's.
const NO_LINE: &str =
    "it is `log`, an index and a text, or `call`, `agreed`, `ask` or `seen`, a tag and the words";

/// What is wrong where a peer is asked to speak for an organisation, and can for none.
const STRANGER: &str =
    "no member of the name behind --org stands behind the store; see ask members (806)";

/// What is wrong where the organisation of a peer stands with a key whose seed is missing.
const KEYLESS: &str =
    "no seed is at hand of the organisation's key there; name its key file by --keys (808)";

/// What is wrong with an amendment that comes as a call.
const NOT_AGREED: &str =
    "it is an amendment; send it behind `agreed` if the organisation agrees to it (409)";

/// What is wrong with a record in whose place other bytes stand, and what to do.
const SPOILT: &str =
    "cannot be read back: other bytes stand there; stop the peer, and look at the disk";

/// What is wrong where a record is not read at all, and what to do.
const UNREAD: &str =
    "cannot be read back: the file is cut short, or the disk fails; stop the peer, and look at it";

/// What is wrong where a growth of memory was refused.
const NO_MEMORY: &str = "there is no memory for it; begin again when there is some (9)";

/// What is wrong with digits that ask for no block.
const NO_NUMBER: &str = "it is no number of a block, or one that begins with 0";

/// Says why a line of a log was skipped. Of one that no orderer has to know, nothing is said.
pub(crate) fn explain_skip<F: Files>(
    alloc: Global,
    files: &mut F,
    line: u64,
    text: &str,
    skip: Skip,
)
    ensures kept { F.bytes files.new ≡ F.bytes files.old }
{
    let place = Location::input(line);
    if skip != Skip::NoHex {
        explain_number(alloc, files, &place, skip.number());
    } else if leaves_genesis_open(text) {
        explain_numbered(alloc, files, &place, NO_MARK, 300);
    }
}

/// Says why the store in the file of a name ends the run.
pub(crate) fn explain_store<F: Files>(
    alloc: Global,
    files: &mut F,
    name: &str,
    refusal: &StoreRefusal,
)
    ensures kept { F.bytes files.new ≡ F.bytes files.old }
{
    let words = store_words(alloc, refusal);
    explain(alloc, files, &Location::file(name), words);
}

/// Says how many bytes were cut off a store, if any, and how many blocks it has.
pub(crate) fn explain_cut<F: Files>(
    alloc: Global,
    files: &mut F,
    name: &str,
    height: u32,
    cut: usize,
)
    ensures kept { F.bytes files.new ≡ F.bytes files.old }
{
    if cut > 0 {
        let words = format!(in alloc;
            "it ended with a part of a record: {cut} bytes were cut off, {height} blocks are kept"
        );
        explain(alloc, files, &Location::file(name), words);
    }
}

/// Says that a part of a record stands behind the last whole block of a store, which ends at a byte.
pub(crate) fn explain_torn<F: Files>(
    alloc: Global,
    files: &mut F,
    name: &str,
    height: u32,
    end: u64,
)
    ensures kept { F.bytes files.new ≡ F.bytes files.old }
{
    let words = format!(in alloc;
        "a part of a record is behind byte {end}, where {height} whole blocks end; it is left out"
    );
    explain(alloc, files, &Location::file(name), words);
}

/// Why a block is refused of which the store has another one.
fn forked_words(alloc: Global, block: u32) -> Result<String, AllocError> {
    format!(in alloc; "block {block} {FORKED} (602)")
}

/// Why a store is refused, in words that end with the number.
fn store_words(alloc: Global, refusal: &StoreRefusal) -> Result<String, AllocError> {
    match refusal {
        StoreRefusal::Damaged(record) => {
            format!(in alloc; "record {record} is damaged; {TAKE_AGAIN} (702)")
        }
        StoreRefusal::Stored(RecommitRefusal::Unfit(block, cause)) => {
            block_words(alloc, *block, *cause)
        }
        StoreRefusal::Stored(RecommitRefusal::Flags(block)) => {
            let words = flags_words(alloc, *block)?;
            format!(in alloc; "{words} (711)")
        }
        StoreRefusal::Received(refusal) => {
            let number = refusal.number();
            format!(in alloc; "a block is refused ({number})")
        }
        StoreRefusal::Memory | StoreRefusal::Stored(RecommitRefusal::Memory) => {
            String::from_str(alloc, NO_MEMORY)
        }
        StoreRefusal::File => format!(in alloc; "{NOT_WRITTEN} (703)"),
    }
}

/// Says why the line of a log is not read.
pub(crate) fn explain_unread<F: Files>(
    alloc: Global,
    files: &mut F,
    store: &str,
    line: u64,
    refusal: &StoreRefusal,
)
    ensures kept { F.bytes files.new ≡ F.bytes files.old }
{
    if let StoreRefusal::Received(ReceiveRefusal::Forked(block)) = refusal {
        let words = forked_words(alloc, block.get());
        return explain(alloc, files, &Location::input(line), words);
    }
    explain_store(alloc, files, store, refusal);
}

/// Says that a line of the input is none of a peer's lines.
pub(crate) fn explain_no_line<F: Files>(alloc: Global, files: &mut F, line: u64)
    ensures kept { F.bytes files.new ≡ F.bytes files.old }
{
    let reason = String::from_str(alloc, NO_LINE);
    explain_bad_line(alloc, files, &Location::input(line), reason);
}

/// Says why the line of this number, which asks for something in these words, is not answered as it
/// asks, if that is so. The store has this name.
pub(crate) fn explain_answer<F: Files>(
    alloc: Global,
    files: &mut F,
    store: &str,
    line: u64,
    request: Request,
    words: &str,
    answer: &Answer,
)
    ensures kept { F.bytes files.new ≡ F.bytes files.old }
{
    let place = Location::input(line);
    match answer {
        Answer::Refused(refusal) => {
            explain(alloc, files, &place, refusal_words(alloc, refusal));
        }
        Answer::Bad => {
            let words = bad_words(alloc, request, words);
            explain(alloc, files, &place, words);
        }
        Answer::Lost(fault) => explain(alloc, files, &place, lost_words(alloc, store, *fault)),
        Answer::Endorsed { .. } | Answer::Seen { .. } | Answer::Json(_) => {}
    }
}

/// Why a call is not endorsed, in words that end with the number.
fn refusal_words(alloc: Global, refusal: &CallRefusal) -> Result<String, AllocError> {
    match refusal {
        CallRefusal::Stranger => String::from_str(alloc, STRANGER),
        CallRefusal::Keyless => String::from_str(alloc, KEYLESS),
        CallRefusal::NotAgreed => String::from_str(alloc, NOT_AGREED),
        CallRefusal::Simulation(refusal) => simulation_words(alloc, refusal),
    }
}

/// Why a block is not read back from the store of a name, in words that end with the number.
fn lost_words(alloc: Global, store: &str, fault: BlockFault) -> Result<String, AllocError> {
    match fault {
        BlockFault::Damaged(block) => {
            format!(in alloc; "the record of block {block} in {store} {SPOILT} (702)")
        }
        BlockFault::Device => format!(in alloc; "a record in {store} {UNREAD} (703)"),
        BlockFault::Memory => String::from_str(alloc, NO_MEMORY),
    }
}

/// Why words spell nothing of what is asked for.
fn bad_words(alloc: Global, request: Request, words: &str) -> Result<String, AllocError> {
    let reason = match request {
        Request::Call { .. } => proposal_reason(alloc, words.as_bytes()),
        Request::Question => question_reason(alloc, words.as_bytes()),
        Request::Seen => String::from_str(alloc, seen_reason(words)),
    }?;
    format!(in alloc; "{reason} (bad)")
}

/// What is wrong with digits that ask for a block, and for none that the store has.
fn seen_reason(digits: &str) -> &'static str {
    match number_in(digits) {
        Some(_) => "the store has no block of this number",
        None => NO_NUMBER,
    }
}
