//! Rounds of lines: those that are at hand at once are read at once, and answered by workers.

ghost use Rattle.std.specs.Prelude.{◌≡◌, ◌<◌, ◌≤◌, ◌∷◌, ℕ, List, [], IfErr, IfOk, OnErr, OnOk, length};
ghost use Rattle.std.specs.Prelude.{false, option_map, true};
ghost use Rattle.cli_lines.specs.Told.{IsBrokenOff, Prints, PrintsPart, Tells, Told};
ghost use Rattle.ledger_model.specs.Chain.{Chain};
ghost use Rattle.peer_answers.specs.Answering.{Peer};
ghost use Rattle.cli_peer.specs.Input.{IsNext, is_at_hand};
ghost use Rattle.cli_peer.specs.Rounds.{AreKnown, IsFilled, IsRound, ReadsBehind, input_of};
ghost use Rattle.peer_answers.specs.Known.{IsKnown};
ghost use Rattle.peer_answers.specs.Setting.{peer_of};

use crate::filter::next_line;
use crate::input::InputLines;
use cli_lines::{Failure, Files, Printer};
use endorsement_policy::Workers;
use peer_answers::{Answer, Answering, answer_each};
use std::alloc::{AllocError, Global};
use std::collections::VecDeque;
use std::io::{Read, Write};
use std::thread::Threads;
use store_devices::Blocks;

/// A round has at most so many lines.
const MOST_LINES: usize = 64;

/// The line that is to be done, and those that were at hand behind it. What is known of the answers
/// to them is by the chain at which the first was answered: behind a line of the log it is thrown
/// away.
#[derive(Drop)]
pub(crate) struct Round {
    line: Vec<u8>,
    /// The answer to it, if that is known.
    answer: Option<Answer>,
    /// The lines behind it, the next first.
    lines: VecDeque<Vec<u8>>,
    /// What is known of the answers to the first of these.
    answers: VecDeque<Option<Answer>>,
}

impl Round {
    /// No line was read.
    pub(crate) fn new(alloc: Global) -> Round
        ensures lines { result.lines.items ≡ [] }
        ensures answers { result.answers.items ≡ [] }
    {
        Round {
            line: Vec::new(alloc),
            answer: None,
            lines: VecDeque::new(alloc),
            answers: VecDeque::new(alloc),
        }
    }

    /// Goes on to the next line. Answers whether there is one. Where none of the round is left, what
    /// was printed is handed on as `next_line` does, and the lines that are at hand then are the
    /// next round. Where nothing is known of the answers, lines are answered first.
    pub(crate) fn next<T: Threads + Sync, F: Files, B: Blocks, R: Read + Drop, W: Write>(
        &mut self,
        files: &mut F,
        workers: &Workers<'_, T>,
        answering: &Answering<'_>,
        blocks: &B,
        lines: &mut InputLines<R>,
        out: &mut Printer<'_, W>,
    ) -> Result<bool, Failure>
        requires sound { B.IsSound blocks.now }
        requires round { IsRound (peer_of B.keeps answering.now) (B.chain blocks.now) self.old }
        ensures round { OnOk result
            (IsRound (peer_of B.keeps answering.now) (B.chain blocks.now) self.new) }
        ensures next { IfOk result
            (λ there. IsNext there (input_of self.old lines.old) (input_of self.new lines.new)) }
        ensures answer { IfOk result
            (λ there. there ≡ true →
            IsKnown (peer_of B.keeps answering.now) (B.chain blocks.now) self.new.line.items
            self.new.answer) }
        ensures told { (before : Told) (text : List ℕ) → Prints before out.old text →
            OnOk result (Prints before out.new text) }
        ensures part { OnErr result (PrintsPart out.old out.new []) }
        ensures tells { Tells out.old out.new result }
        ensures lost { IfErr result IsBrokenOff }
        ensures kept { F.bytes files.new ≡ F.bytes files.old }
    {
        let there = self.fill(answering.alloc, files, lines, out)?;
        if there {
            self.look_ahead(workers, answering, blocks);
            self.step();
        }
        Ok(there)
    }

    /// Reads the next round, where no line of this one is left: a line, for which it waits, and those
    /// at hand behind it. Answers whether a line is left.
    fn fill<F: Files, R: Read + Drop, W: Write>(
        &mut self,
        alloc: Global,
        files: &mut F,
        lines: &mut InputLines<R>,
        out: &mut Printer<'_, W>,
    ) -> Result<bool, Failure>
        ensures filled { IfOk result
            (λ there. IsFilled there self.old.lines.items lines.old.left self.new.lines.items
            lines.new.left) }
        ensures answers { self.new.answers.items ≡ self.old.answers.items }
        ensures handed_on { self.old.lines.items ≡ [] → is_at_hand lines.old ≡ false →
            OnOk result (out.new.waits ≡ false) }
        ensures told { (before : Told) (text : List ℕ) → Prints before out.old text →
            OnOk result (Prints before out.new text) }
        ensures part { OnErr result (PrintsPart out.old out.new []) }
        ensures tells { Tells out.old out.new result }
        ensures lost { IfErr result IsBrokenOff }
        ensures kept { F.bytes files.new ≡ F.bytes files.old }
    {
        if !self.lines.is_empty() {
            return Ok(true);
        }
        let there = next_line(alloc, files, lines, out)?;
        if there {
            self.read(alloc, lines)?;
        }
        Ok(there)
    }

    /// Takes the line that was read last, and those at hand behind it.
    fn read<R: Read + Drop>(
        &mut self,
        alloc: Global,
        lines: &mut InputLines<R>,
    ) -> Result<(), AllocError>
        ensures lines { OnOk result
            (ReadsBehind lines.old.last lines.old.left self.new.lines.items lines.new.left) }
        ensures answers { self.new.answers.items ≡ self.old.answers.items }
    {
        self.lines = VecDeque::new(alloc);
        self.lines.push_back(lines.take_last(alloc))?;
        for _ in 1..MOST_LINES {
            let Some(line) = lines.take_at_hand(alloc)? else {
                return Ok(());
            };
            self.lines.push_back(line)?;
        }
        Ok(())
    }

    /// Answers the lines before the first of the log, where there are several, several workers, and
    /// nothing is known of the answers. Where there is no memory for that, nothing is known.
    fn look_ahead<T: Threads + Sync, B: Blocks>(
        &mut self,
        workers: &Workers<'_, T>,
        answering: &Answering<'_>,
        blocks: &B,
    )
        requires sound { B.IsSound blocks.now }
        requires known { AreKnown (peer_of B.keeps answering.now) (B.chain blocks.now)
            self.old.answers.items self.old.lines.items }
        ensures known { AreKnown (peer_of B.keeps answering.now) (B.chain blocks.now)
            self.new.answers.items self.new.lines.items }
        ensures lines { self.new.lines.items ≡ self.old.lines.items }
    {
        if !self.answers.is_empty() || workers.count() == 1 {
            return;
        }
        let (front, _) = self.lines.as_slices();
        let run = &front[..run_length(front)];
        if run.len() < 2 {
            return;
        }
        if let Ok(answers) = answer_each(workers, answering, blocks, run) {
            self.answers = VecDeque::from_vec(answers);
        }
    }

    /// Goes on to the next line that is left.
    fn step(&mut self)
        requires there { 0 < length self.old.lines.items }
        ensures lines { self.old.lines.items ≡ self.new.line ∷ self.new.lines.items }
        ensures known { (p : Peer) (chain : Chain) →
            AreKnown p chain self.old.answers.items self.old.lines.items →
            IsKnown p chain self.new.line.items self.new.answer
            × AreKnown p chain self.new.answers.items self.new.lines.items }
    {
        if let Some(line) = self.lines.pop_front() {
            self.line = line;
        }
        self.answer = self.answers.pop_front().flatten();
    }

    /// The line that is to be done.
    pub(crate) fn line(&self) -> &[u8]
        ensures { result.now ≡ self.now.line.items }
    {
        &self.line
    }

    /// The answer to it, if that is known.
    pub(crate) fn answer(&self) -> Option<&Answer>
        ensures { option_map (λ a. a.now) result ≡ self.now.answer }
    {
        self.answer.as_ref()
    }

    /// Throws away what is known of the answers to the lines behind it.
    pub(crate) fn forget(&mut self)
        ensures answers { self.new.answers.items ≡ [] }
        ensures lines { self.new.lines.items ≡ self.old.lines.items }
    {
        self.answers.clear();
    }
}

/// How many lines stand before the first one that looks like one of the log.
fn run_length(lines: &[Vec<u8>]) -> usize
    ensures { result ≤ length lines.now }
{
    let log = lines.iter().position(|line| line.starts_with(b"log "));
    log.unwrap_or(lines.len())
}
