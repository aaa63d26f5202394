//! The command `run`: a system, on which the lines of a file are events.

ghost use Rattle.std.specs.Prelude.{◌≡◌, ◌≢◌, ◌<◌, ◌⊎◌, false, None, IfErr, IfOk, IfSome, OnErr, OnOk, map, option_map, string_bytes};
ghost use Rattle.json_events.specs.Bound.{bound_as, envelope_named};
ghost use Rattle.fabric_core.specs.declared.event.Event.TheVariants.{Begin, Finish};
ghost use Rattle.fabric_core.specs.declared.event.Reply.TheVariants.{Endorsed};
ghost use Rattle.wire.specs.FaultNumbers.{number_of};
ghost use Rattle.wire.specs.declared.fault.WireFault.TheVariants.{Memory};
ghost use Rattle.cli_lines.specs.Places.{ChangesOnly};
ghost use Rattle.cli_lines.specs.Texts.{line, refused};
ghost use Rattle.cli_lines.specs.Told.{Answers, Begins, IsBrokenOff, Prints, PrintsNothing, Tells, Told};
ghost use Rattle.cli_session.specs.Replies.{begin_text, endorsed_text, finish_text, reply_text};
ghost use Rattle.cli_session.specs.Running.{Does, DoesAll, DoesFirst, IsBadLine, IsBytes, IsLine, IsNamed, IsUnbound, MeetsBadLine, StopsAt};
ghost use Rattle.cli_session.specs.Stages.{DoesPrint, Gets, IsStepOf, Stay, StepsTo, first_chain, stage_at};
ghost use Rattle.cli_lines.specs.Whole.{ChangesPlaced, Stays, StaysPlaced, whole_names};
ghost use Rattle.cli_session.specs.Stored.{HoldsAsked, HoldsPlaced, IsNotRun, WhereNoStore};
ghost use Rattle.cli_session.specs.Whole.{BeginsFrom, ComesTo, EndsPrinted, IsEnd, LinesBegin, LinesComeTo, RunBegins};

use crate::explaining::{Refused, explain_line, next_explained, refused_by};
use crate::lines::{endorsed_line, print_begun, print_bound, print_reply, print_state, print_step};
use crate::placing::place_of;
use crate::reading::Next;
use crate::storing::write_store;
use crate::verdict::{print_verdict, verdict_of};
use cli_lines::{
    Access, Failure, Files, Location, Printer, Target, explain_missing, explain_trouble, need_seeds,
};
use endorsement_policy::Workers;
use fab_types::{Endorsement, Payload, Proposal};
use fabric_core::{Event, Reply, System};
use json_events::{Action, BadLine, Bindings, read_event};
use ledger_setting::Genesis;
use orderer::ordering_laws;
use std::alloc::{AllocError, Global};
use std::io::{BufRead, BufReader, Write};
use std::thread::Threads;
use wire::{WireFault, decode_envelope};

/// A system at work, and the endorsements that have a name.
#[derive(Drop)]
struct Session<'a, T> {
    workers: &'a Workers<'a, T>,
    alloc: Global,
    system: System,
    bindings: Bindings,
    /// The name of the file of events.
    events: &'a str,
    /// Why the last step was refused, if it was.
    refused: Option<Refused>,
}

/// The names of the files of a run.
#[derive(Clone, Copy)]
pub struct RunFiles<'a> {
    /// The genesis file, which was read.
    pub genesis: &'a str,
    /// The file of events, which is read as the run goes.
    pub events: &'a str,
    /// The modules file, which was read, if there is one.
    pub modules: Option<&'a str>,
    /// The key file, which was read, if there is one.
    pub keys: Option<&'a str>,
    /// The store that gets the chain of the first peer, if there is one.
    pub store: Option<&'a str>,
}

/// Runs the lines of a file of events on the system that a genesis opens, prints what each comes
/// to, the state of the first peer after them and the audit of its chain, and writes that chain to
/// a store if there is one. Answers whether all transactions agree with their reruns. Where the
/// chain upgrades to a module that is not at hand, there is no audit: that is printed (406), and the
/// answer is no.
///
/// The file is read as the run goes. A line that stands for nothing ends the run, and then no store
/// is written. The run is refused before the file is opened where a peer's seed is not at hand
/// (808). The store's name is looked at before the first line is read: refused (703) where its
/// file is one that the run reads, where another one has it, and where it holds bytes with which no
/// store begins. The run has the file for itself alone until it ends. However many workers check the
/// envelopes of blocks, it prints the same.
pub fn run<T: Threads + Sync, F: Files, W: Write>(
    workers: &Workers<'_, T>,
    alloc: Global,
    files: &mut F,
    genesis: &Genesis,
    names: &RunFiles<'_>,
    out: &mut Printer<'_, W>,
) -> Result<bool, Failure>
    ensures tells { Tells out.old out.new result }
    ensures differs { IfOk result (λ good. good ≡ false → out.old.printed < out.new.printed) }
    // What the lines of the events come to is printed, then the first peer's state and what is said
    // of its chain; and the store that was asked for has that chain.
    ensures answers { Answers (ComesTo genesis.now (F.bytes files.old names.now.events.now)
        (HoldsAsked F.is_known (F.bytes files.new) (option_map (λ s. s.now) names.now.store)))
        out.old out.new result }
    // What a run that is broken off printed is a beginning of this, where no text failed: what some
    // first lines come to, and, where they are all, the state and what is said of the chain.
    ensures begins { Begins (RunBegins genesis.now (F.bytes files.old names.now.events.now))
        out.old out.new result }
    // Where no store is asked for, no file is written, and else none but the store's.
    ensures kept { names.now.store ≡ None → F.bytes files.new ≡ F.bytes files.old }
    ensures others { IfSome names.now.store
        (λ s. ChangesOnly F.is_known (whole_names s.now) (F.bytes files.old) (F.bytes files.new)) }
    // A run that is refused or broken off leaves the store as it was.
    ensures stays { OnErr result
        (IfSome names.now.store
        (λ s. Stays F.is_known s.now (F.bytes files.old) (F.bytes files.new))) }
    // Where its file holds bytes with which no store begins, no file is written, and nothing is run.
    ensures spares { IfSome names.now.store
        (λ s. WhereNoStore F.is_known (F.bytes files.old) s.now
        (F.bytes files.new ≡ F.bytes files.old)) }
    ensures refuses { IfSome names.now.store
        (λ s. WhereNoStore F.is_known (F.bytes files.old) s.now (IsNotRun result)) }
{
    need_seeds(alloc, files, genesis, &genesis.peers)?;
    let Some(events) = files.open(names.events) else {
        explain_trouble(alloc, files, names.events, Access::Read);
        return Err(Failure::File);
    };
    let mut lines = BufReader::new(alloc, events)?;
    run_read(workers, alloc, files, genesis, names, &mut lines, out)
}

/// The same of the lines of a file, which are read as the run goes.
fn run_read<T: Threads + Sync, F: Files, B: BufRead, W: Write>(
    workers: &Workers<'_, T>,
    alloc: Global,
    files: &mut F,
    genesis: &Genesis,
    names: &RunFiles<'_>,
    lines: &mut B,
    out: &mut Printer<'_, W>,
) -> Result<bool, Failure>
    ensures tells { Tells out.old out.new result }
    ensures differs { IfOk result (λ good. good ≡ false → out.old.printed < out.new.printed) }
    ensures comes { Answers (LinesComeTo genesis.now (B.remaining lines.old)
        (HoldsAsked F.is_known (F.bytes files.new) (option_map (λ s. s.now) names.now.store)))
        out.old out.new result }
    ensures begins { Begins (LinesBegin genesis.now (B.remaining lines.old)) out.old out.new result }
    ensures kept { names.now.store ≡ None → F.bytes files.new ≡ F.bytes files.old }
    ensures others { IfSome names.now.store
        (λ s. ChangesOnly F.is_known (whole_names s.now) (F.bytes files.old) (F.bytes files.new)) }
    ensures stays { OnErr result
        (IfSome names.now.store
        (λ s. Stays F.is_known s.now (F.bytes files.old) (F.bytes files.new))) }
    ensures spares { IfSome names.now.store
        (λ s. WhereNoStore F.is_known (F.bytes files.old) s.now
        (F.bytes files.new ≡ F.bytes files.old)) }
    ensures refuses { IfSome names.now.store
        (λ s. WhereNoStore F.is_known (F.bytes files.old) s.now (IsNotRun result)) }
{
    match names.store {
        Some(store) => {
            let place = place_of(alloc, files, names, store)?;
            let ran = run_into(
                workers,
                alloc,
                files,
                genesis,
                names.events,
                lines,
                Some(&place.target),
                out,
            );
            place.explain_replaced(alloc, files, store, &ran);
            ran
        }
        None => run_into(
            workers,
            alloc,
            files,
            genesis,
            names.events,
            lines,
            None,
            out,
        ),
    }
}

/// The same, where the chain is written to this place if there is one.
fn run_into<T: Threads + Sync, F: Files, B: BufRead, W: Write>(
    workers: &Workers<'_, T>,
    alloc: Global,
    files: &mut F,
    genesis: &Genesis,
    events: &str,
    lines: &mut B,
    store: Option<&Target>,
    out: &mut Printer<'_, W>,
) -> Result<bool, Failure>
    ensures tells { Tells out.old out.new result }
    ensures differs { IfOk result (λ good. good ≡ false → out.old.printed < out.new.printed) }
    ensures comes { Answers (LinesComeTo genesis.now (B.remaining lines.old)
        (HoldsPlaced F.is_known (F.bytes files.new) (option_map (λ t. t.now) store.entry))) out.old
        out.new result }
    ensures begins { Begins (LinesBegin genesis.now (B.remaining lines.old)) out.old out.new result }
    ensures kept { store.entry ≡ None → F.bytes files.new ≡ F.bytes files.old }
    ensures others { IfSome store.entry
        (λ t. ChangesPlaced F.is_known t.now (F.bytes files.old) (F.bytes files.new)) }
    ensures stays { OnErr result
        (IfSome store.entry
        (λ t. StaysPlaced F.is_known t.now (F.bytes files.old) (F.bytes files.new))) }
{
    ordering_laws();
    let system = System::new(alloc, genesis)?;
    let bindings = Bindings::new(alloc);
    let mut session = Session {
        workers,
        alloc,
        system,
        bindings,
        events,
        refused: None,
    };
    session.run_to_end(files, genesis, lines, store, out)
}

impl<T: Threads + Sync> Session<'_, T> {
    /// Runs the lines, prints how the first peer stands then, and writes its chain to a store if
    /// there is one. Answers whether all transactions agree with their reruns.
    fn run_to_end<F: Files, B: BufRead, W: Write>(
        &mut self,
        files: &mut F,
        genesis: &Genesis,
        lines: &mut B,
        store: Option<&Target>,
        out: &mut Printer<'_, W>,
    ) -> Result<bool, Failure>
        ensures tells { Tells out.old out.new result }
        ensures stops { IfErr result
            (λ f. IsBrokenOff f
            ⊎ MeetsBadLine (B.remaining lines.old) (stage_at self.old.system self.old.bindings) out.old
            out.new f) }
        ensures stored { OnOk result
            (HoldsPlaced F.is_known (F.bytes files.new) (option_map (λ t. t.now) store.entry)
            (first_chain self.new.system)) }
        ensures differs { IfOk result (λ good. good ≡ false → out.old.printed < out.new.printed) }
        ensures does { IfOk result
            (λ good. (mid : Told) ×
            DoesAll (B.remaining lines.old) (stage_at self.old.system self.old.bindings)
            (stage_at self.new.system self.new.bindings) out.old mid ×
            EndsPrinted genesis.now.book.value (first_chain self.new.system) good mid out.new) }
        ensures begins { Begins
            (BeginsFrom genesis.now.book.value (B.remaining lines.old)
            (stage_at self.old.system self.old.bindings)) out.old out.new result }
        ensures kept { store.entry ≡ None → F.bytes files.new ≡ F.bytes files.old }
        ensures others { IfSome store.entry
            (λ t. ChangesPlaced F.is_known t.now (F.bytes files.old) (F.bytes files.new)) }
        ensures stays { OnErr result
            (IfSome store.entry
            (λ t. StaysPlaced F.is_known t.now (F.bytes files.old) (F.bytes files.new))) }
    {
        self.run_lines(files, genesis, lines, out)?;
        let is_good = self.print_end(genesis, out)?;
        if let (Some(target), Some(snapshot)) = (store, self.system.snapshot(0)) {
            write_store(self.alloc, files, target, snapshot)?;
        }
        Ok(is_good)
    }

    /// Does what each line stands for, in order, and prints what it comes to. Then says which block of
    /// the first peer's chain cannot be run again, if one cannot.
    fn run_lines<F: Files, B: BufRead, W: Write>(
        &mut self,
        files: &mut F,
        genesis: &Genesis,
        lines: &mut B,
        out: &mut Printer<'_, W>,
    ) -> Result<(), Failure>
        ensures tells { Tells out.old out.new result }
        ensures stops { IfErr result
            (λ f. IsBrokenOff f
            ⊎ MeetsBadLine (B.remaining lines.old) (stage_at self.old.system self.old.bindings) out.old
            out.new f) }
        ensures does { OnOk result
            (DoesAll (B.remaining lines.old) (stage_at self.old.system self.old.bindings)
            (stage_at self.new.system self.new.bindings) out.old out.new) }
        ensures first { OnErr result
            (DoesFirst (B.remaining lines.old) (stage_at self.old.system self.old.bindings)
            out.old out.new) }
        ensures kept { F.bytes files.new ≡ F.bytes files.old }
    {
        self.do_lines(files, lines, out)?;
        if let Some(snapshot) = self.system.snapshot(0) {
            let blocks = snapshot.blocks();
            explain_missing(self.alloc, files, self.events, &genesis.book, blocks);
        }
        Ok(())
    }

    /// Does what each line stands for, in order, and prints what it comes to.
    fn do_lines<F: Files, B: BufRead, W: Write>(
        &mut self,
        files: &mut F,
        lines: &mut B,
        out: &mut Printer<'_, W>,
    ) -> Result<(), Failure>
        ensures tells { Tells out.old out.new result }
        ensures stops { IfErr result
            (λ f. IsBrokenOff f
            ⊎ MeetsBadLine (B.remaining lines.old) (stage_at self.old.system self.old.bindings) out.old
            out.new f) }
        ensures does { OnOk result
            (DoesAll (B.remaining lines.old) (stage_at self.old.system self.old.bindings)
            (stage_at self.new.system self.new.bindings) out.old out.new) }
        ensures first { OnErr result
            (DoesFirst (B.remaining lines.old) (stage_at self.old.system self.old.bindings)
            out.old out.new) }
        ensures kept { F.bytes files.new ≡ F.bytes files.old }
    {
        for number in 1..usize::MAX {
            let place = Location::line(self.events, number as u64);
            match next_explained(self.alloc, files, &place, lines)? {
                Next::Line(line) => self.take_explained(files, &place, &line, number, out)?,
                Next::TooLong => return Err(Failure::BadLine(number)),
                Next::End => return Ok(()),
            }
        }
        // So many lines no file has.
        Err(Failure::File)
    }

    /// Does what the line at a place stands for, as `take_line`. Says why it was refused, if it was,
    /// or is a bad one.
    fn take_explained<F: Files, W: Write>(
        &mut self,
        files: &mut F,
        place: &Location<'_>,
        line: &[u8],
        number: usize,
        out: &mut Printer<'_, W>,
    ) -> Result<(), Failure>
        ensures tells { Tells out.old out.new result }
        ensures stops { IfErr result
            (StopsAt number (IsBadLine line.now self.old.bindings) out.old out.new) }
        ensures does { OnOk result
            (DoesPrint (IsLine line.now)
            (stage_at self.old.system self.old.bindings)
            (stage_at self.new.system self.new.bindings) out.old out.new) }
        ensures nothing { OnErr result (PrintsNothing out.old out.new) }
        ensures kept { F.bytes files.new ≡ F.bytes files.old }
    {
        let told = self.take_line(line, number, out);
        let refused = self.refused.take();
        explain_line(
            self.alloc,
            files,
            place,
            line,
            &self.bindings,
            refused,
            &told,
        );
        told
    }

    /// Does what the line of this number stands for, and prints what it comes to.
    fn take_line<W: Write>(
        &mut self,
        line: &[u8],
        number: usize,
        out: &mut Printer<'_, W>,
    ) -> Result<(), Failure>
        ensures tells { Tells out.old out.new result }
        ensures stops { IfErr result
            (StopsAt number (IsBadLine line.now self.old.bindings) out.old out.new) }
        ensures does { OnOk result
            (DoesPrint (IsLine line.now)
            (stage_at self.old.system self.old.bindings)
            (stage_at self.new.system self.new.bindings) out.old out.new) }
        ensures nothing { OnErr result (PrintsNothing out.old out.new) }
    {
        let Ok(line) = std::str::from_utf8(line) else {
            return Err(Failure::BadLine(number));
        };
        match read_event(self.alloc, line) {
            Ok(action) => self.act(action, number, out),
            Err(BadLine::Memory) => Err(Failure::Memory),
            Err(BadLine::NoForm) => Err(Failure::BadLine(number)),
        }
    }

    /// Does what the line of this number asks for.
    fn act<W: Write>(
        &mut self,
        action: Action,
        number: usize,
        out: &mut Printer<'_, W>,
    ) -> Result<(), Failure>
        ensures tells { Tells out.old out.new result }
        ensures stops { IfErr result
            (StopsAt number (IsUnbound action self.old.bindings) out.old out.new) }
        ensures does { OnOk result
            (DoesPrint (Does action)
            (stage_at self.old.system self.old.bindings)
            (stage_at self.new.system self.new.bindings) out.old out.new) }
        ensures nothing { OnErr result (PrintsNothing out.old out.new) }
    {
        match action {
            Action::Begin {
                peer,
                seat,
                proposal,
            } => self.begin(peer as usize, seat as usize, proposal, out),
            Action::Finish { peer, seat, name } => {
                self.finish(peer as usize, seat as usize, name, out)
            }
            Action::SubmitEndorsed(names) => self.submit_endorsed(&names, number, out),
            Action::SubmitBytes(bytes) => self.submit_bytes(&bytes, out),
            Action::Take => self.step(Event::Take, out),
            Action::Tick => self.step(Event::Tick, out),
            Action::Commit { peer } => self.step(
                Event::Commit {
                    peer: peer as usize,
                },
                out,
            ),
        }
    }

    /// The reply to an event, which is one step. Why it was refused, if it was, is kept for the
    /// line's sentence.
    fn reply_to(&mut self, event: Event) -> Result<Reply, AllocError>
        ensures step { IfOk result (λ r. StepsTo self.old.system event r self.new.system) }
        ensures names { self.new.bindings ≡ self.old.bindings }
        ensures unchanged { OnErr result (self.new.system ≡ self.old.system) }
    {
        let reply = self.system.step_by_workers(self.workers, event);
        self.refused = refused_by(&reply);
        reply
    }

    /// One step, whose reply is printed.
    fn step<W: Write>(&mut self, event: Event, out: &mut Printer<'_, W>) -> Result<(), Failure>
        ensures tells { Tells out.old out.new result }
        ensures lost { IfErr result IsBrokenOff }
        ensures does { OnOk result
            (DoesPrint (IsStepOf event reply_text Stay)
            (stage_at self.old.system self.old.bindings)
            (stage_at self.new.system self.new.bindings) out.old out.new) }
        ensures nothing { OnErr result (PrintsNothing out.old out.new) }
    {
        let reply = self.reply_to(event);
        let told = print_step(&reply, out);
        drop(reply);
        told
    }

    /// Begins a proposal at a seat. Prints where, and on what height.
    fn begin<W: Write>(
        &mut self,
        peer: usize,
        seat: usize,
        proposal: Proposal,
        out: &mut Printer<'_, W>,
    ) -> Result<(), Failure>
        ensures tells { Tells out.old out.new result }
        ensures lost { IfErr result IsBrokenOff }
        ensures does { OnOk result
            (DoesPrint (IsStepOf (Begin peer seat proposal) (begin_text peer seat) Stay)
            (stage_at self.old.system self.old.bindings)
            (stage_at self.new.system self.new.bindings) out.old out.new) }
        ensures nothing { OnErr result (PrintsNothing out.old out.new) }
    {
        let reply = self.reply_to(Event::Begin {
            peer,
            seat,
            proposal,
        });
        let told = print_begun(peer, seat, &reply, out);
        drop(reply);
        told
    }

    /// Finishes what a seat has begun. What is endorsed gets the name.
    fn finish<W: Write>(
        &mut self,
        peer: usize,
        seat: usize,
        name: String,
        out: &mut Printer<'_, W>,
    ) -> Result<(), Failure>
        ensures tells { Tells out.old out.new result }
        ensures lost { IfErr result IsBrokenOff }
        ensures does { OnOk result
            (DoesPrint
            (IsStepOf (Finish peer seat) (finish_text (string_bytes name))
            (Gets (string_bytes name)))
            (stage_at self.old.system self.old.bindings)
            (stage_at self.new.system self.new.bindings) out.old out.new) }
        ensures nothing { OnErr result (PrintsNothing out.old out.new) }
    {
        match self.reply_to(Event::Finish { peer, seat }) {
            Ok(reply) => self.take_reply(name, reply, out),
            Err(_) => Err(Failure::Memory),
        }
    }

    /// Gives what a reply to a finish endorses, if it does, its name, and prints what it comes to.
    fn take_reply<W: Write>(
        &mut self,
        name: String,
        reply: Reply,
        out: &mut Printer<'_, W>,
    ) -> Result<(), Failure>
        ensures tells { Tells out.old out.new result }
        ensures lost { IfErr result IsBrokenOff }
        ensures names { OnOk result
            (Gets (string_bytes name) reply self.old.bindings self.new.bindings) }
        ensures system { self.new.system ≡ self.old.system }
        ensures prints { OnOk result
            (Prints out.old out.new (finish_text (string_bytes name) reply)) }
        ensures nothing { OnErr result (PrintsNothing out.old out.new) }
    {
        match reply {
            Reply::Endorsed(payload, endorsement) => self.bind(name, payload, endorsement, out),
            reply => {
                let told = print_reply(&reply, out);
                // An end at which a reply is dropped unsaid is dear to prove.
                drop(reply);
                told
            }
        }
    }

    /// Gives a payload and its endorsement a name. Prints the name and the payload's id, when
    /// nothing but the output can fail any more. The payload is handed on before anything can end
    /// this: an end at which it is dropped is dear to prove.
    fn bind<W: Write>(
        &mut self,
        name: String,
        payload: Payload,
        endorsement: Endorsement,
        out: &mut Printer<'_, W>,
    ) -> Result<(), Failure>
        ensures tells { Tells out.old out.new result }
        ensures lost { IfErr result IsBrokenOff }
        ensures names { OnOk result
            (Gets (string_bytes name) (Endorsed payload endorsement) self.old.bindings
            self.new.bindings) }
        ensures system { self.new.system ≡ self.old.system }
        ensures prints { OnOk result
            (Prints out.old out.new (endorsed_text (string_bytes name) payload)) }
        ensures nothing { OnErr result (PrintsNothing out.old out.new) }
    {
        let line = endorsed_line(self.alloc, name.as_str(), &payload);
        let bound = self.bindings.bind(name, payload, endorsement);
        print_bound(&line, bound, out)
    }

    /// Submits the envelope that names stand for, in the line of this number.
    fn submit_endorsed<W: Write>(
        &mut self,
        names: &[String],
        number: usize,
        out: &mut Printer<'_, W>,
    ) -> Result<(), Failure>
        ensures tells { Tells out.old out.new result }
        ensures stops { IfErr result
            (StopsAt number
            (envelope_named (bound_as self.old.bindings) (map string_bytes names.now) ≡ None) out.old
            out.new) }
        ensures does { OnOk result
            (DoesPrint (IsNamed (map string_bytes names.now))
            (stage_at self.old.system self.old.bindings)
            (stage_at self.new.system self.new.bindings) out.old out.new) }
        ensures nothing { OnErr result (PrintsNothing out.old out.new) }
    {
        let found = self.bindings.resolve(names)?;
        match found {
            Some(envelope) => self.step(Event::Submit(envelope), out),
            None => Err(Failure::BadLine(number)),
        }
    }

    /// Submits the envelope that bytes spell.
    fn submit_bytes<W: Write>(
        &mut self,
        bytes: &[u8],
        out: &mut Printer<'_, W>,
    ) -> Result<(), Failure>
        ensures tells { Tells out.old out.new result }
        ensures lost { IfErr result IsBrokenOff }
        ensures does { OnOk result
            (DoesPrint (IsBytes bytes.now)
            (stage_at self.old.system self.old.bindings)
            (stage_at self.new.system self.new.bindings) out.old out.new) }
        ensures nothing { OnErr result (PrintsNothing out.old out.new) }
    {
        match decode_envelope(self.alloc, bytes) {
            Ok(envelope) => self.step(Event::Submit(envelope), out),
            Err(fault) => {
                self.refused = Some(Refused::Numbered(fault.number()));
                print_fault(fault, out)
            }
        }
    }

    /// Prints the state of the first peer and what is said of its chain, which is looked at before,
    /// and answers whether all transactions agree with their reruns.
    fn print_end<W: Write>(
        &self,
        genesis: &Genesis,
        out: &mut Printer<'_, W>,
    ) -> Result<bool, Failure>
        ensures tells { Tells out.old out.new result }
        ensures lost { IfErr result IsBrokenOff }
        ensures differs { IfOk result (λ good. good ≡ false → out.old.printed < out.new.printed) }
        ensures ends { IfOk result
            (λ good. EndsPrinted genesis.now.book.value (first_chain self.now.system) good out.old
            out.new) }
        ensures begins { Begins
            (IsEnd genesis.now.book.value (first_chain self.now.system)) out.old out.new result }
    {
        let Some(snapshot) = self.system.snapshot(0) else {
            return Ok(true);
        };
        let verdict = verdict_of(self.alloc, genesis, snapshot)?;
        print_state(self.alloc, snapshot, out)?;
        print_verdict(verdict, out)
    }
}

/// Prints why bytes are no envelope.
fn print_fault<W: Write>(fault: WireFault, out: &mut Printer<'_, W>) -> Result<(), Failure>
    ensures tells { Tells out.old out.new result }
    ensures lost { IfErr result IsBrokenOff }
    ensures prints { OnOk result
        ((fault ≢ Memory) × Prints out.old out.new (line (refused (number_of fault)))) }
    ensures nothing { OnErr result (PrintsNothing out.old out.new) }
{
    match fault {
        WireFault::Memory => Err(Failure::Memory),
        fault => {
            let number = fault.number();
            writeln!(out, "refused {number}")
        }
    }
}
