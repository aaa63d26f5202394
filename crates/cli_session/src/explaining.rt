//! Why a line of events is refused or a bad one, in words on the standard error.

ghost use Rattle.std.specs.Prelude.{◌≡◌, IfErr, IfOk};
ghost use Rattle.cli_lines.specs.Told.{IsBrokenOff, IsSilent};
ghost use Rattle.cli_session.specs.Reading.{IsNext};

use crate::reading::{Next, next_line};
use cli_lines::{
    Access, Failure, Files, Location, explain, explain_bad_line, explain_trouble, number_words,
    simulation_words,
};
use fabric_core::Reply;
use json_events::{Action, Bindings, read_event};
use json_reasons::event_reason;
use simulator::SimRefusal;
use std::alloc::{AllocError, Global};
use std::io::BufRead;

/// Why the system did not do what a line asks for.
#[derive(Clone, Copy)]
pub(crate) enum Refused {
    /// A simulation gave no payload, or a stale one.
    Simulated(SimRefusal),
    /// By this number.
    Numbered(u16),
}

/// Why a reply refuses a step, if it does.
pub(crate) fn refused_by(reply: &Result<Reply, AllocError>) -> Option<Refused> {
    match reply {
        Ok(Reply::Refused(refusal)) => Some(Refused::Simulated(*refusal)),
        Ok(reply) => match reply.number() {
            Some(number) => Some(Refused::Numbered(number)),
            None => None,
        },
        Err(_) => None,
    }
}

/// The next line, as `next_line` reads it. Says why it was not read whole, if it was not.
pub(crate) fn next_explained<F: Files, B: BufRead>(
    alloc: Global,
    files: &mut F,
    place: &Location<'_>,
    lines: &mut B,
) -> Result<Next, Failure>
    ensures silent { IfErr result IsSilent }
    ensures lost { IfErr result IsBrokenOff }
    ensures next { IfOk result (λ n. IsNext n (B.remaining lines.old) (B.remaining lines.new)) }
    ensures kept { F.bytes files.new ≡ F.bytes files.old }
{
    let next = next_line(alloc, lines);
    explain_next(alloc, files, place, &next);
    next
}

/// Says why the next line was not read whole, if it was not.
fn explain_next<F: Files>(
    alloc: Global,
    files: &mut F,
    place: &Location<'_>,
    next: &Result<Next, Failure>,
)
    ensures kept { F.bytes files.new ≡ F.bytes files.old }
{
    match next {
        Err(Failure::File) => explain_trouble(alloc, files, place.file, Access::Read),
        Ok(Next::TooLong) => {
            let reason = String::from_str(alloc, "it has more than 2,097,152 bytes");
            explain_bad_line(alloc, files, place, reason);
        }
        _ => {}
    }
}

/// Says why the line at a place was refused, if it was, or is a bad one.
pub(crate) fn explain_line<F: Files>(
    alloc: Global,
    files: &mut F,
    place: &Location<'_>,
    line: &[u8],
    bindings: &Bindings,
    refused: Option<Refused>,
    told: &Result<(), Failure>,
)
    ensures kept { F.bytes files.new ≡ F.bytes files.old }
{
    if let Err(Failure::BadLine(_)) = told {
        explain_bad_line(alloc, files, place, bad_reason(alloc, line, bindings));
    } else if let Some(refused) = refused {
        explain(alloc, files, place, refused_words(alloc, line, refused));
    }
}

/// The action that a line spells, if it spells one.
fn action_of(alloc: Global, line: &[u8]) -> Option<Action> {
    read_event(alloc, std::str::from_utf8(line).ok()?).ok()
}

/// Why a line is a bad one: it is no event, or names what no finish gave a name.
fn bad_reason(alloc: Global, line: &[u8], bindings: &Bindings) -> Result<String, AllocError> {
    match unbound_reason(alloc, line, bindings)? {
        Some(reason) => Ok(reason),
        None => event_reason(alloc, line),
    }
}

/// Which name of a line no finish gave, if it uses one.
fn unbound_reason(
    alloc: Global,
    line: &[u8],
    bindings: &Bindings,
) -> Result<Option<String>, AllocError> {
    let action = action_of(alloc, line);
    unbound_in(alloc, used_in(&action), bindings)
}

/// The names that an action uses.
fn used_in(action: &Option<Action>) -> &[String] {
    match action {
        Some(Action::SubmitEndorsed(names)) => names,
        _ => &[],
    }
}

/// The first of these names that no finish gave, in words.
fn unbound_in(
    alloc: Global,
    names: &[String],
    bindings: &Bindings,
) -> Result<Option<String>, AllocError> {
    for index in 0..names.len() {
        if !is_bound(&names[index..index + 1], bindings)? {
            let name = &names[index];
            return format!(in alloc; "no finish before it gave the name {name:?}").map(Some);
        }
    }
    Ok(None)
}

/// Whether names stand for an envelope.
fn is_bound(names: &[String], bindings: &Bindings) -> Result<bool, AllocError> {
    Ok(bindings.resolve(names)?.is_some())
}

/// What was refused, and why, in words that end with the number.
fn refused_words(alloc: Global, line: &[u8], refused: Refused) -> Result<String, AllocError> {
    let verb = verb_in(alloc, line);
    match refused {
        Refused::Simulated(refusal) => {
            let words = simulation_words(alloc, &refusal)?;
            format!(in alloc; "{verb} is refused: {words}")
        }
        Refused::Numbered(number) => {
            let words = number_words(alloc, number)?;
            format!(in alloc; "{verb} is refused: {words}")
        }
    }
}

/// The word by which a line asks for its action, if it spells one.
fn verb_in(alloc: Global, line: &[u8]) -> &'static str {
    match &action_of(alloc, line) {
        Some(action) => verb_of(action),
        None => "it",
    }
}

/// The word by which an event asks for an action.
fn verb_of(action: &Action) -> &'static str {
    match action {
        Action::Begin { .. } => "begin",
        Action::Finish { .. } => "finish",
        Action::SubmitEndorsed(_) | Action::SubmitBytes(_) => "submit",
        Action::Take => "take",
        Action::Tick => "tick",
        Action::Commit { .. } => "commit",
    }
}
