//! The command `peer`.

ghost use Rattle.std.specs.Prelude.{◌≡◌, ◌↔◌, ◌∷◌, [], Ok, Err, IfErr, IfOk, IsTrue, OnErr, OnOk};
ghost use Rattle.std.specs.Prelude.{codes, false, length, true, IfSome, IsSome, MatchResult};
ghost use Rattle.std.specs.Str.{IsUtf8};
ghost use Rattle.hex.specs.Hex.{encode_lower};
ghost use Rattle.cli_lines.specs.Places.{ChangesOnly, opened_bytes};
ghost use Rattle.cli_lines.specs.Told.{Answers, Begins, IsBrokenOff, IsMore, Prints, PrintsNothing};
ghost use Rattle.cli_lines.specs.Told.{Says, Tells};
ghost use Rattle.ledger_setting.specs.Rule.{table_of};
ghost use Rattle.log_peer.specs.Holding.{HoldsRecords, KeepsRecords};
ghost use Rattle.log_peer.specs.Peering.{IsPeer, file_of, fresh, held_by, rules_of};
ghost use Rattle.log_peer.specs.Storing.{IsOpenRefused, IsOpened};
ghost use Rattle.store_replay.specs.Lawful.{AreLawful};
ghost use Rattle.peer_answers.specs.Answering.{AnswersText, Says as SaysBy};
ghost use Rattle.cli_peer.specs.Filters.{BeginsSo, DoesOrEnds, IsEndedBy, PrintsSo};
ghost use Rattle.cli_peer.specs.Keeping.{HoldsReached, KeepsStore, KeepsTold, LeadTo, StoresOn};
ghost use Rattle.cli_peer.specs.Keeping.{TellsLine, TellsLines};
ghost use Rattle.cli_peer.specs.Logged.{EndsEntry, IsLogged};
ghost use Rattle.cli_peer.specs.Marks.{NamesAnotherIn};
ghost use Rattle.cli_peer.specs.Opening.{ComesBehind};
ghost use Rattle.cli_peer.specs.Peering.{DoesAsked, DoesLine, EndsLine, Peers};
ghost use Rattle.cli_peer.specs.Peering.{PeersBegin, PeersLines, bad_text};
ghost use Rattle.cli_peer.specs.Rounds.{IsRound, left_behind};
ghost use Rattle.peer_answers.specs.Known.{IsKnown};
ghost use Rattle.cli_peer.specs.Running.{IsReader, IsSound, reached};
ghost use Rattle.cli_peer.specs.Setting.{asked_by};
ghost use Rattle.peer_answers.specs.Setting.{peer_of};
ghost use Rattle.peer_answers.specs.Spoken.{answer_text};

use crate::explaining::{
    explain_answer, explain_cut, explain_no_line, explain_store, explain_unread,
};
use crate::filter::end;
use crate::input::InputLines;
use crate::logged::Telling;
use crate::marks::{is_of_mark, leaves_genesis_open, names_another_genesis};
use crate::opening::print_opened;
use crate::round::Round;
use cli_lines::{Access, Failure, Files, Location, Printer, explain_number, explain_trouble};
use endorsement_policy::Workers;
use fab_types::OrgName;
use ledger_setting::Genesis;
use log_peer::{LogPeer, PeerReport, Unopened};
use peer_answers::{Answer, Answering, Asked, Entry, Line, LogGenesis, Place, place_in};
use std::alloc::{AllocError, Global};
use std::io::{Read, Write};
use std::thread::Threads;
use store_devices::StoreFile;
use store_replay::{TagChecks, Watch};
use world_state::Past;

/// What is said of a log whose first line leaves open which genesis file counts.
const LEFT_OPEN: &str =
    "the log does not say which genesis file counts: let its first line be `genesis <SHA-256>`";

/// What is said of an organisation that does not stand behind the store.
const NO_MEMBER: &str =
    "the organisation is no member behind the store: it endorses nothing until it is one";

/// What is said of one whose seed is missing there.
const NO_SEED: &str =
    "no seed is at hand of the organisation's key behind the store: it endorses nothing without";

/// What `peer` is asked for: to endorse for this organisation, if for any, over the store in the
/// file of a name.
#[derive(Clone, Copy)]
pub struct Peering<'a> {
    pub org: Option<&'a OrgName>,
    pub store: &'a str,
}

/// Reads lines: those of a log, whose blocks it commits to a store, and between them proposals and
/// questions, which it answers by the chain that the store has then. It makes the store where there
/// is none.
///
/// First comes `cut` with a count of bytes, where the store ended with a part of a record, which is
/// cut off then, and `height` with the count of its blocks. Behind each line of the log comes
/// `read`, its index, and how many envelopes wait; before it what came of the line: `aborted` for
/// each transaction that is left out of a batch; `tx` for each of a block that joined the chain,
/// and `committed` with its number and its flags, once it is on the disk; `known` of a block that
/// the chain has; `forked` where an organisation has another block; and `skipped` with the reason.
/// A first line of the log that names another genesis ends it (807), and so does one that makes
/// another block of a number than the store has (602).
///
/// Each other line is answered once, in its order, by `answer`, its tag, the height of the chain,
/// and what is said: `endorsed` with the bytes of the payload and of the endorsement in hex, or why
/// not; the answer to a question; `seen` with the hash of a block; or `bad`. A line that is none of
/// these is `bad line` and its number. Workers check tags at once, and answer at once the lines that
/// are at hand at once: what is printed is the same for every number of them.
pub fn peer<T: Threads + Sync, F: Files, W: Write>(
    workers: &Workers<'_, T>,
    alloc: Global,
    files: &mut F,
    log: &LogGenesis,
    asked: &Peering<'_>,
    out: &mut Printer<'_, W>,
) -> Result<(), Failure>
    ensures tells { Tells out.old out.new result }
    ensures answers { Answers
        (Peers (asked_by F.is_known log.now asked.now)
        (opened_bytes F.is_known (F.bytes files.old asked.now.store.now))
        (F.input_bytes files.old)) out.old out.new result }
    ensures begins { Begins
        (PeersBegin (asked_by F.is_known log.now asked.now)
        (opened_bytes F.is_known (F.bytes files.old asked.now.store.now))
        (F.input_bytes files.old)) out.old out.new result }
    // Where it is known what is written, the whole records that the store held stand first in it. At
    // the end of the input it has the records of the chain that was reached, and nothing else.
    ensures keeps { KeepsStore F.is_known asked.now.store.now (F.bytes files.old)
        (F.bytes files.new) }
    ensures holds { OnOk result
        (HoldsReached F.is_known (asked_by F.is_known log.now asked.now) asked.now.store.now
        (F.input_bytes files.old) (F.bytes files.old) (F.bytes files.new)) }
    // Whatever this answers, also where it is broken off, the store has each block that was told.
    ensures told { KeepsTold F.is_known (asked_by F.is_known log.now asked.now) asked.now.store.now
        (F.input_bytes files.old) (F.bytes files.old) (F.bytes files.new) out.old out.new }
    // No other file is changed then.
    ensures others { ChangesOnly F.is_known (asked.now.store.now ∷ []) (F.bytes files.old)
        (F.bytes files.new) }
{
    let Some(file) = files.open_store(asked.store) else {
        explain_trouble(alloc, files, asked.store, Access::Write);
        return Err(Failure::File);
    };
    let mut lines = InputLines::new(alloc, files.input())?;
    let watch = files.watch();
    let setting = Setting {
        workers,
        answering: Answering {
            alloc,
            log,
            org: asked.org,
        },
        store: asked.store,
    };
    peer_to(files, &setting, watch, file, &mut lines, out)
}

/// What a peer goes by.
#[derive(Drop)]
struct Setting<'a, T> {
    workers: &'a Workers<'a, T>,
    answering: Answering<'a>,
    /// The name of the store.
    store: &'a str,
}

/// A peer, and whether it has read a line of the log.
#[derive(Drop)]
struct Reader<D: Drop> {
    peer: LogPeer<D>,
    begun: bool,
}

/// Opens the store of a file, whose tags are checked by workers.
fn open_peer<T: Threads + Sync, V: Watch + Drop, D: StoreFile>(
    workers: &Workers<'_, T>,
    watch: V,
    alloc: Global,
    genesis: &Genesis,
    file: D,
) -> Result<(LogPeer<D>, usize), Unopened<D>>
    ensures stored { IfOk result (λ p. IsPeer p.0) }
    ensures lawful { IfOk result
        (λ p. AreLawful (table_of genesis.now.rules.value) [] (held_by p.0).chain) }
    ensures rules { IfOk result (λ p. rules_of p.0 ≡ genesis.now.rules.value) }
    ensures unread { IfOk result (λ p. (held_by p.0).log ≡ fresh genesis.now) }
    ensures opened { IfOk result
        (λ p. IsOpened (D.contents file) (held_by p.0).chain p.1) }
    ensures refused { IfErr result
        (λ u. IsOpenRefused (table_of genesis.now.rules.value) (D.contents file) u.refusal) }
    ensures holds { IfOk result
        (λ p. IfSome (D.contents file)
        (λ _. HoldsRecords (D.contents (file_of p.0)) (held_by p.0).chain)) }
    ensures keeps { MatchResult result
        (λ p. KeepsRecords (D.contents file) (D.contents (file_of p.0)))
        (λ u. KeepsRecords (D.contents file) (D.contents u.file)) }
{
    LogPeer::open(&TagChecks::new(workers, &watch), alloc, genesis, file)
}

/// Opens the store of a file, does each line, and closes the file.
fn peer_to<T: Threads + Sync, F: Files, V: Watch + Drop, R: Read + Drop, W: Write>(
    files: &mut F,
    setting: &Setting<'_, T>,
    watch: V,
    file: F::Store,
    lines: &mut InputLines<R>,
    out: &mut Printer<'_, W>,
) -> Result<(), Failure>
    requires there { F.is_known ≡ true →
        F.Store.contents file ≡ F.bytes files.old setting.now.store.now }
    requires made { F.is_known ≡ true → IsSome (F.bytes files.old setting.now.store.now) }
    requires known { F.Store.is_known ≡ F.is_known }
    ensures tells { Tells out.old out.new result }
    ensures answers { Answers
        (Peers (peer_of F.Store.is_known setting.now.answering) (F.Store.contents file)
        lines.old.left) out.old out.new result }
    ensures begins { Begins
        (PeersBegin (peer_of F.Store.is_known setting.now.answering) (F.Store.contents file)
        lines.old.left) out.old out.new result }
    ensures keeps { KeepsStore F.is_known setting.now.store.now (F.bytes files.old)
        (F.bytes files.new) }
    ensures holds { OnOk result
        (HoldsReached F.is_known (peer_of F.Store.is_known setting.now.answering)
        setting.now.store.now lines.old.left (F.bytes files.old) (F.bytes files.new)) }
    ensures told { KeepsTold F.is_known (peer_of F.Store.is_known setting.now.answering)
        setting.now.store.now lines.old.left (F.bytes files.old) (F.bytes files.new) out.old
        out.new }
    ensures others { ChangesOnly F.is_known (setting.now.store.now ∷ []) (F.bytes files.old)
        (F.bytes files.new) }
{
    let alloc = setting.answering.alloc;
    let genesis = &setting.answering.log.genesis;
    match open_peer(setting.workers, watch, alloc, genesis, file) {
        Ok((peer, cut)) => {
            let mut reader = Reader { peer, begun: false };
            let ended = peer_behind(files, setting, &mut reader, cut, lines, out);
            files.close_store(reader.peer.into_file(), setting.store);
            ended
        }
        Err(unopened) => {
            explain_store(alloc, files, setting.store, &unopened.refusal);
            let failure = end(unopened.refusal, out);
            files.close_store(unopened.file, setting.store);
            Err(failure)
        }
    }
}

/// Prints with how many blocks a store was opened, and does each line.
fn peer_behind<T: Threads + Sync, F: Files, D: StoreFile + Sync, R: Read + Drop, W: Write>(
    files: &mut F,
    setting: &Setting<'_, T>,
    reader: &mut Reader<D>,
    cut: usize,
    lines: &mut InputLines<R>,
    out: &mut Printer<'_, W>,
) -> Result<(), Failure>
    requires reader { IsReader D.is_known D.contents setting.now.answering.log.now reader.old }
    ensures tells { Tells out.old out.new result }
    ensures answers { Answers
        (λ answer text. ComesBehind (held_by reader.old.peer).chain cut
        (PeersLines (peer_of D.is_known setting.now.answering) (reached reader.old) lines.old.left
        answer) text)
        out.old out.new result }
    ensures told { BeginsSo
        (ComesBehind (held_by reader.old.peer).chain cut
        (TellsLines D.contents (peer_of D.is_known setting.now.answering) reader.old reader.new
        lines.old.left)) out.old out.new }
    ensures leads { OnOk result
        (LeadTo (peer_of D.is_known setting.now.answering) (reached reader.old) lines.old.left
        (reached reader.new)) }
    ensures stores { StoresOn D.contents reader.old.peer reader.new.peer result }
    ensures kept { F.bytes files.new ≡ F.bytes files.old }
{
    let height = height_of(&reader.peer);
    explain_cut(setting.answering.alloc, files, setting.store, height, cut);
    print_opened(height, cut, out)?;
    remark_place(files, setting, &reader.peer);
    peer_lines(files, setting, reader, lines, out)
}

/// How many blocks the chain of a peer has.
fn height_of<D: StoreFile>(peer: &LogPeer<D>) -> u32
    requires { IsPeer peer.now }
    ensures { result ≡ length (held_by peer.now).chain }
{
    peer.chain().height()
}

/// Says where the organisation of a peer can endorse nothing behind the store.
fn remark_place<T, F: Files, D: StoreFile>(
    files: &mut F,
    setting: &Setting<'_, T>,
    peer: &LogPeer<D>,
)
    ensures kept { F.bytes files.new ≡ F.bytes files.old }
{
    let Answering { alloc, log, org } = setting.answering;
    let Some(org) = org else {
        return;
    };
    match place_in(alloc, &log.genesis, peer.chain().map(), org) {
        Ok(Place::Stranger) => files.remark(NO_MEMBER),
        Ok(Place::Keyless) => files.remark(NO_SEED),
        Ok(Place::Stands) | Err(_) => {}
    }
}

/// Does each line.
fn peer_lines<T: Threads + Sync, F: Files, D: StoreFile + Sync, R: Read + Drop, W: Write>(
    files: &mut F,
    setting: &Setting<'_, T>,
    reader: &mut Reader<D>,
    lines: &mut InputLines<R>,
    out: &mut Printer<'_, W>,
) -> Result<(), Failure>
    requires reader { IsReader D.is_known D.contents setting.now.answering.log.now reader.old }
    ensures tells { Tells out.old out.new result }
    ensures answers { Answers
        (PeersLines (peer_of D.is_known setting.now.answering) (reached reader.old) lines.old.left)
        out.old out.new result }
    ensures told { BeginsSo
        (TellsLines D.contents (peer_of D.is_known setting.now.answering) reader.old reader.new
        lines.old.left) out.old out.new }
    ensures leads { OnOk result
        (LeadTo (peer_of D.is_known setting.now.answering) (reached reader.old) lines.old.left
        (reached reader.new)) }
    ensures stores { StoresOn D.contents reader.old.peer reader.new.peer result }
    ensures kept { F.bytes files.new ≡ F.bytes files.old }
{
    let mut round = Round::new(setting.answering.alloc);
    do_lines(files, setting, reader, &mut round, lines, out)
}

/// Does each line that is left of a round and of the input behind it.
fn do_lines<T: Threads + Sync, F: Files, D: StoreFile + Sync, R: Read + Drop, W: Write>(
    files: &mut F,
    setting: &Setting<'_, T>,
    reader: &mut Reader<D>,
    round: &mut Round,
    lines: &mut InputLines<R>,
    out: &mut Printer<'_, W>,
) -> Result<(), Failure>
    requires reader { IsReader D.is_known D.contents setting.now.answering.log.now reader.old }
    requires round { IsRound (peer_of D.is_known setting.now.answering)
        (held_by reader.old.peer).chain round.old }
    ensures tells { Tells out.old out.new result }
    ensures answers { Answers
        (PeersLines (peer_of D.is_known setting.now.answering) (reached reader.old)
        (left_behind round.old.lines.items lines.old.left)) out.old out.new result }
    ensures told { BeginsSo
        (TellsLines D.contents (peer_of D.is_known setting.now.answering) reader.old reader.new
        (left_behind round.old.lines.items lines.old.left)) out.old out.new }
    ensures leads { OnOk result
        (LeadTo (peer_of D.is_known setting.now.answering) (reached reader.old)
        (left_behind round.old.lines.items lines.old.left) (reached reader.new)) }
    ensures stores { StoresOn D.contents reader.old.peer reader.new.peer result }
    ensures kept { F.bytes files.new ≡ F.bytes files.old }
{
    let Setting {
        workers,
        answering,
        ..
    } = setting;
    for number in 1..u64::MAX {
        let blocks = reader.peer.blocks();
        let there = round.next(files, workers, answering, blocks, lines, out)?;
        if !there {
            return Ok(());
        }
        take_line(files, setting, reader, round, number, out)?;
    }
    // So many lines no input has.
    Err(Failure::File)
}

/// Does the line of a round, which has this number. What is known of the answers to the lines
/// behind it is thrown away where the chain may grow.
fn take_line<T: Threads + Sync, F: Files, D: StoreFile + Sync, W: Write>(
    files: &mut F,
    setting: &Setting<'_, T>,
    reader: &mut Reader<D>,
    round: &mut Round,
    number: u64,
    out: &mut Printer<'_, W>,
) -> Result<(), Failure>
    requires reader { IsReader D.is_known D.contents setting.now.answering.log.now reader.old }
    requires round { IsRound (peer_of D.is_known setting.now.answering)
        (held_by reader.old.peer).chain round.old }
    requires answer { IsKnown (peer_of D.is_known setting.now.answering)
        (held_by reader.old.peer).chain round.old.line.items round.old.answer }
    ensures reader { OnOk result
        (IsReader D.is_known D.contents setting.now.answering.log.now reader.new) }
    ensures round { OnOk result
        (IsRound (peer_of D.is_known setting.now.answering) (held_by reader.new.peer).chain
        round.new) }
    ensures lines { round.new.lines.items ≡ round.old.lines.items }
    ensures tells { Tells out.old out.new result }
    ensures does { Answers
        (DoesOrEnds
        (λ text. DoesLine (peer_of D.is_known setting.now.answering) number (reached reader.old)
        round.old.line.items text (reached reader.new))
        (EndsLine (peer_of D.is_known setting.now.answering) number (reached reader.old)
        round.old.line.items)) out.old out.new result }
    ensures told { TellsLine D.contents reader.old.peer reader.new.peer
        (λ text. DoesLine (peer_of D.is_known setting.now.answering) number (reached reader.old)
        round.old.line.items text (reached reader.new))
        (EndsLine (peer_of D.is_known setting.now.answering) number (reached reader.old)
        round.old.line.items) out.old out.new }
    ensures stores { StoresOn D.contents reader.old.peer reader.new.peer result }
    ensures kept { F.bytes files.new ≡ F.bytes files.old }
{
    let Answering { alloc, .. } = setting.answering;
    let decoded = String::from_utf8_lossy(alloc, round.line())?;
    match Line::of(&decoded) {
        Some(Line::Log(entry)) => {
            round.forget();
            take_entry(files, setting, reader, number, &entry, out)
        }
        Some(Line::Ask(asked)) => {
            answer_line(files, setting, &reader.peer, round, number, &asked, out)
        }
        None => print_bad_line(alloc, files, number, out),
    }
}

/// Answers the line of a round, which has this number and asks for something. One that is no text is
/// a bad one.
fn answer_line<T, F: Files, D: StoreFile + Sync, W: Write>(
    files: &mut F,
    setting: &Setting<'_, T>,
    peer: &LogPeer<D>,
    round: &Round,
    number: u64,
    asked: &Asked<'_>,
    out: &mut Printer<'_, W>,
) -> Result<(), Failure>
    requires sound { IsSound D.is_known D.contents peer.now }
    requires answer { IfSome round.now.answer
        (λ a. SaysBy (peer_of D.is_known setting.now.answering) (held_by peer.now).chain
        asked.now.request asked.now.words.now (answer_text a)) }
    ensures tells { Tells out.old out.new result }
    ensures prints { OnOk result
        (PrintsSo
        (DoesAsked (peer_of D.is_known setting.now.answering) number (held_by peer.now).chain
        round.now.line.items asked.now.request asked.now.tag.now asked.now.words.now) out.old
        out.new) }
    ensures nothing { OnErr result (PrintsNothing out.old out.new) }
    ensures lost { IfErr result IsBrokenOff }
    ensures kept { F.bytes files.new ≡ F.bytes files.old }
{
    if !is_text(round.line()) {
        return print_bad_line(setting.answering.alloc, files, number, out);
    }
    match round.answer() {
        Some(answer) => print_answer(files, setting, peer, number, asked, answer, out),
        None => {
            let answering = &setting.answering;
            let answer = answering.answer(peer.blocks(), asked.request, asked.words)?;
            print_answer(files, setting, peer, number, asked, &answer, out)
        }
    }
}

/// Whether bytes are text.
fn is_text(bytes: &[u8]) -> bool
    ensures { IsTrue result ↔ IsUtf8 bytes.now }
{
    std::str::from_utf8(bytes).is_ok()
}

/// Prints that the line of this number is none of a peer's.
fn print_bad_line<F: Files, W: Write>(
    alloc: Global,
    files: &mut F,
    number: u64,
    out: &mut Printer<'_, W>,
) -> Result<(), Failure>
    ensures tells { Tells out.old out.new result }
    ensures prints { OnOk result (Prints out.old out.new (bad_text number)) }
    ensures nothing { OnErr result (PrintsNothing out.old out.new) }
    ensures lost { IfErr result IsBrokenOff }
    ensures kept { F.bytes files.new ≡ F.bytes files.old }
{
    explain_no_line(alloc, files, number);
    writeln!(out, "bad line {number}")
}

/// Prints the answer to what the line of this number asks for, and says why it is not answered as it
/// asks, if that is so.
fn print_answer<T, F: Files, D: StoreFile, W: Write>(
    files: &mut F,
    setting: &Setting<'_, T>,
    peer: &LogPeer<D>,
    line: u64,
    asked: &Asked<'_>,
    answer: &Answer,
    out: &mut Printer<'_, W>,
) -> Result<(), Failure>
    requires stored { IsPeer peer.now }
    requires answer { SaysBy (peer_of D.is_known setting.now.answering) (held_by peer.now).chain
        asked.now.request asked.now.words.now (answer_text answer.now) }
    ensures tells { Tells out.old out.new result }
    ensures prints { OnOk result
        (PrintsSo
        (AnswersText (peer_of D.is_known setting.now.answering) (held_by peer.now).chain
        asked.now.request asked.now.tag.now asked.now.words.now) out.old out.new) }
    ensures nothing { OnErr result (PrintsNothing out.old out.new) }
    ensures lost { IfErr result IsBrokenOff }
    ensures kept { F.bytes files.new ≡ F.bytes files.old }
{
    let Asked {
        request,
        tag,
        words,
    } = *asked;
    let alloc = setting.answering.alloc;
    explain_answer(alloc, files, setting.store, line, request, words, answer);
    writeln!(out, "answer {tag} {} {answer}", height_of(peer))
}

/// Reads the entry of the line of this number. The first may name a genesis, which has to be this log's.
fn take_entry<T: Threads + Sync, F: Files, D: StoreFile, W: Write>(
    files: &mut F,
    setting: &Setting<'_, T>,
    reader: &mut Reader<D>,
    line: u64,
    entry: &Entry<'_>,
    out: &mut Printer<'_, W>,
) -> Result<(), Failure>
    requires reader { IsReader D.is_known D.contents setting.now.answering.log.now reader.old }
    ensures reader { OnOk result
        (IsReader D.is_known D.contents setting.now.answering.log.now reader.new) }
    ensures tells { Tells out.old out.new result }
    ensures does { Answers
        (DoesOrEnds
        (λ text. IsLogged setting.now.answering.log.now (reached reader.old)
        entry.now.index.now entry.now.text.now text (reached reader.new))
        (EndsEntry setting.now.answering.log.now (reached reader.old) entry.now.text.now))
        out.old out.new result }
    ensures told { TellsLine D.contents reader.old.peer reader.new.peer
        (λ text. IsLogged setting.now.answering.log.now (reached reader.old)
        entry.now.index.now entry.now.text.now text (reached reader.new))
        (EndsEntry setting.now.answering.log.now (reached reader.old) entry.now.text.now)
        out.old out.new }
    ensures handed_on { OnOk result (out.new.waits ≡ false) }
    ensures stores { StoresOn D.contents reader.old.peer reader.new.peer result }
    ensures kept { F.bytes files.new ≡ F.bytes files.old }
{
    let Answering { alloc, log, .. } = setting.answering;
    let other = begins_another(alloc, log, reader.begun, entry.text)?;
    if other {
        return Err(end_by_genesis(alloc, files, line, out));
    }
    match reader.peer.read(setting.workers, entry.text) {
        Ok(report) => {
            explain_open(files, reader.begun, &report, entry.text);
            reader.begun = true;
            let telling = Telling {
                alloc,
                log,
                peer: &reader.peer,
            };
            telling.print_entry(files, line, entry, &report, out)?;
            out.flush()
        }
        Err(refusal) => {
            explain_unread(alloc, files, setting.store, line, &refusal);
            Err(end(refusal, out))
        }
    }
}

/// Whether no line of the log was read yet, and this text names the file of a genesis by its digest,
/// and another one than the log's.
fn begins_another(
    alloc: Global,
    log: &LogGenesis,
    begun: bool,
    text: &str,
) -> Result<bool, AllocError>
    ensures { IfOk result
        (λ other. IsTrue other
        ↔ (begun ≡ false) × NamesAnotherIn (encode_lower log.now.digest) text.now) }
{
    if begun {
        return Ok(false);
    }
    let digest = hex::encode(alloc, &log.digest)?;
    Ok(names_another_genesis(text, &digest))
}

/// Says where the first line of a log leaves open which genesis file counts.
fn explain_open<F: Files>(files: &mut F, begun: bool, report: &PeerReport, text: &str)
    ensures kept { F.bytes files.new ≡ F.bytes files.old }
{
    if !begun && leaves_open(report, text) {
        files.remark(LEFT_OPEN);
    }
}

/// Whether a first line of a log leaves open which genesis file counts.
fn leaves_open(report: &PeerReport, text: &str) -> bool {
    match report {
        PeerReport::Accepted { .. } | PeerReport::Ticked(_) => false,
        PeerReport::Skipped(skip) => !is_of_mark(*skip) && leaves_genesis_open(text),
    }
}

/// Prints that the first line of the log names another genesis, which ends it.
fn end_by_genesis<F: Files, W: Write>(
    alloc: Global,
    files: &mut F,
    line: u64,
    out: &mut Printer<'_, W>,
) -> Failure
    ensures ends { IsEndedBy (codes "refused 807") out.old out.new result }
    ensures more { IsMore out.old out.new }
    ensures says { Says out.old out.new result }
    ensures kept { F.bytes files.new ≡ F.bytes files.old }
{
    explain_number(alloc, files, &Location::input(line), 807);
    match writeln!(out, "refused 807") {
        Ok(()) => Failure::Printed,
        Err(failure) => failure,
    }
}
