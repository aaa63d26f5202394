//! Lines that are answered before they are done, by workers at once.

ghost use Rattle.std.specs.Prelude.{◌≡◌, ◌<◌, IfOk, IfSome, length, slice_index_or};
ghost use Rattle.std.specs.List.{AllZip};
ghost use Rattle.std.specs.Global.{Vec};
ghost use Rattle.std.specs.Str.Lossy.{utf8_lossy};
ghost use Rattle.peer_answers.specs.Lines.{said_in};
ghost use Rattle.peer_answers.specs.Known.{IsAnswerTo, IsKnown};
ghost use Rattle.peer_answers.specs.Setting.{peer_of};

use crate::answer::Answer;
use crate::answering::Answering;
use crate::line::Line;
use endorsement_policy::Workers;
use std::alloc::AllocError;
use std::thread;
use std::thread::Threads;
use store_devices::Blocks;

/// The answers to these lines, in their order, by workers at once: the same for every number of
/// them. None to a line that asks for nothing, and where there is no memory for an answer. The only
/// error is want of memory.
pub fn answer_each<T: Threads + Sync, B: Blocks>(
    workers: &Workers<'_, T>,
    answering: &Answering<'_>,
    blocks: &B,
    lines: &[Vec<u8>],
) -> Result<Vec<Option<Answer>>, AllocError>
    requires { B.IsSound blocks.now }
    ensures { IfOk result
        (λ v. AllZip (λ l a. IsKnown (peer_of B.keeps answering.now) (B.chain blocks.now) l.items a)
        lines.now v.items) }
{
    let mut answers = Vec::new(answering.alloc);
    answers.resize_with(lines.len(), || None)?;
    put_answers(workers, answering, blocks, lines, &mut answers);
    Ok(answers)
}

/// Puts the answer to each line at its place. Each worker answers a run of them.
fn put_answers<T: Threads + Sync, B: Blocks>(
    workers: &Workers<'_, T>,
    answering: &Answering<'_>,
    blocks: &B,
    lines: &[Vec<u8>],
    answers: &mut [Option<Answer>],
)
    requires sound { B.IsSound blocks.now }
    requires one_each { length answers.old ≡ length lines.now }
    ensures { AllZip
        (λ l a. IsKnown (peer_of B.keeps answering.now) (B.chain blocks.now) l.items a) lines.now
        answers.new }
{
    thread::for_each_mut(
        workers.rt(),
        answers,
        workers.count(),
        &|place: usize, answer: &mut Option<Answer>|
            requires { (place < length lines.now) × B.IsSound blocks.now }
            ensures { (none : Vec _) → IsKnown (peer_of B.keeps answering.entry.now)
                (B.chain blocks.entry.now) (slice_index_or lines.entry.now place none).items
                answer.exit.now }
        {
            *answer = answer_to(answering, blocks, &lines[place]);
        },
    );
}

/// The answer to a line, if it asks for something and there is memory for the answer.
fn answer_to<B: Blocks>(answering: &Answering<'_>, blocks: &B, line: &[u8]) -> Option<Answer>
    requires { B.IsSound blocks.now }
    ensures { IfSome result
        (λ a. IsAnswerTo (peer_of B.keeps answering.now) (B.chain blocks.now)
        (said_in (utf8_lossy line.now)) a) }
{
    let text = std::str::from_utf8(line).ok()?;
    match Line::of(text) {
        Some(Line::Ask(asked)) => answering.answer(blocks, asked.request, asked.words).ok(),
        Some(Line::Log(_)) | None => None,
    }
}
