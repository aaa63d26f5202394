//! The program, but for the machine that it runs on.

ghost use Rattle.std.specs.Prelude.{◌≡◌, ◌<◌, [], true, false, None, IfSome, OnErr, OnOk, map, option_map, string_bytes};
ghost use Rattle.cli_lines.specs.Places.{ChangesOnly};
ghost use Rattle.cli_lines.specs.Told.{Answers, Begins, IsMore, IsTold, Prints, Says, Tells, Told};
ghost use Rattle.ledger_cli.specs.Ends.{CarriesOut, Ends, PrintsLast, command_in, failure_status};
ghost use Rattle.ledger_cli.specs.Leaving.{KeepsFiles, Leaves, LeavesFiles, SparesStore};
ghost use Rattle.cli_lines.specs.Whole.{whole_names};
ghost use Rattle.cli_session.specs.Stored.{WhereNoStore};
ghost use Rattle.cli_session.specs.Whole.{RunBegins};
ghost use Rattle.ledger_cli.specs.Tasks.{Comes, IsPart, Runs, WithGenesis, Works, known_files};
ghost use Rattle.cli_lines.specs.Told.{IsHandedOn};

use crate::opening::opened;
use crate::public::public;
use crate::threading::threads;
use crate::verdict::answer_of;
use cli_lines::{Failure, Files, Location, Printer, explain_failure};
use cli_peer::{Checkpointing, Peering, checkpoint, peer};
use cli_session::{RunFiles, run};
use cli_show::{
    Asked, Part, Shown, Simulated, Span, audit, check, digest, marks, show, simulate, state, trace,
    version,
};
use cli_words::{Beginning, StatePart, Task, Usage, WordsFault, Work, parse, words_reason};
use endorsement_policy::Workers;
use ledger_setting::Genesis;
use peer_answers::LogGenesis;
use std::alloc::Global;
use std::io::Write;
use std::sync::Wait;
use std::thread::{Threads, available_parallelism};

/// What tasks work with.
#[derive(Clone, Copy)]
struct Machine<'a, R> {
    rt: &'a R,
    alloc: Global,
}

/// What a task works on: a genesis, and the names of its file and of those beside it.
#[derive(Clone, Copy)]
struct Subject<'a> {
    begin: &'a Beginning<'a>,
    log: &'a LogGenesis,
}

/// Does what the words ask for, the command first, and answers the exit status: 0 for done, 1 for a
/// refusal or a difference, which are printed, and 2 where the words name no task. Where a text
/// cannot be printed, it is 1. What was printed is handed on at the end.
pub fn program<R: Threads + Wait + Sync + Send + Copy + 'static, F: Files, W: Write>(
    rt: &R,
    alloc: Global,
    words: &[String],
    files: &mut F,
    out: &mut Printer<'_, W>,
) -> u8
    ensures status { result < 3 }
    ensures done { result ≡ 0 → out.new.failed ≡ out.old.failed }
    ensures told { 0 < result → IsTold out.old out.new }
    ensures lost { out.old.failed ≡ false → out.new.failed ≡ true → result ≡ 1 }
    ensures more { IsMore out.old out.new }
    ensures handed_on { IsHandedOn out.new }
    // What the words ask for is done, where each text could be printed and handed on.
    ensures answers { out.new.failed ≡ false
        → Ends (map string_bytes words.now)
        (known_files F.is_known (F.bytes files.old) (F.bytes files.new)
        (F.input_bytes files.old)) out.old out.new result }
    // Only a run with a store, a peer and `checkpoint` write files, and none but the store's or the
    // checkpoint's, where it is known what is written. A run writes none where that holds bytes with
    // which no store begins. A peer keeps the whole records that its store held.
    ensures files { KeepsFiles F.is_known (map string_bytes words.now) (F.bytes files.old)
        (F.bytes files.new) }
{
    match carry_out(Machine { rt, alloc }, words, files, out) {
        Ok(()) => done(out),
        Err(failure) => {
            // On a terminal the sentence stands last.
            let status = refused(command_in(words), failure, out);
            explain_refusal(alloc, files, words, &failure);
            status
        }
    }
}

/// The name of the command that words begin with. Empty where there are none.
fn command_in(words: &[String]) -> &str
    ensures { result.now ≡ command_in (map string_bytes words.now) }
{
    match words.first() {
        Some(command) => command.as_str(),
        None => "",
    }
}

/// Says in words why a task was not done, or why the words name none, where that is not said yet.
fn explain_refusal<F: Files>(alloc: Global, files: &mut F, words: &[String], failure: &Failure)
    ensures { F.bytes files.new ≡ F.bytes files.old }
{
    if let Failure::Usage = failure {
        if let Ok(reason) = words_reason(alloc, words) {
            files.explain(&reason);
        }
    } else if let Some(command) = words.first() {
        explain_failure(alloc, files, &Location::file(command), failure);
    }
}

/// The status of a task that was done: 0, where what it printed can be handed on.
fn done<W: Write>(out: &mut Printer<'_, W>) -> u8
    ensures status { result < 2 }
    ensures done { result ≡ 0 → out.new.failed ≡ out.old.failed }
    ensures told { 0 < result → out.new.failed ≡ true }
    ensures lost { out.old.failed ≡ false → out.new.failed ≡ true → result ≡ 1 }
    ensures ended { out.new.failed ≡ false → (result ≡ 0) × Prints out.old out.new [] }
    ensures more { IsMore out.old out.new }
    ensures handed_on { IsHandedOn out.new }
{
    if hand_on(out) { 0 } else { 1 }
}

/// The status of a task that was not done: 2, where the words name none. Prints why, where that is
/// not printed yet.
fn refused<W: Write>(command: &str, failure: Failure, out: &mut Printer<'_, W>) -> u8
    ensures status { (0 < result) × (result < 3) }
    ensures told { (before : Told) → IsMore before out.old → Says before out.old failure
        → IsTold before out.new }
    ensures lost { (failure ≡ Failure.Usage → out.old.failed ≡ false)
        → out.new.failed ≡ true → result ≡ 1 }
    ensures ended { out.new.failed ≡ false
        → (result ≡ failure_status failure) × PrintsLast command.now failure out.old out.new }
    ensures more { IsMore out.old out.new }
    ensures handed_on { IsHandedOn out.new }
{
    let is_told = tell_and_hand_on(command, failure, out);
    status_of(failure, is_told)
}

/// Prints why a task was not done, where that is not printed yet, and hands it on. Whether both
/// could be done.
fn tell_and_hand_on<W: Write>(command: &str, failure: Failure, out: &mut Printer<'_, W>) -> bool
    ensures told { (before : Told) → IsMore before out.old → Says before out.old failure
        → IsTold before out.new }
    ensures line { result ≡ true → PrintsLast command.now failure out.old out.new }
    ensures lost { result ≡ false → out.new.failed ≡ true }
    ensures more { IsMore out.old out.new }
    ensures handed_on { IsHandedOn out.new }
{
    let told = tell(command, failure, out);
    let is_handed_on = hand_on(out);
    match told {
        Ok(()) => is_handed_on,
        Err(_) => false,
    }
}

/// The status of a failure: 1, where it could not be told.
fn status_of(failure: Failure, is_told: bool) -> u8
    ensures told { is_told ≡ true → result ≡ failure_status failure }
    ensures lost { is_told ≡ false → result ≡ 1 }
    ensures range { (0 < result) × (result < 3) }
{
    if is_told { failure_status(failure) } else { 1 }
}

/// The status of a failure that was told: 2, where the words name no task.
fn failure_status(failure: Failure) -> u8
    ensures status { result ≡ failure_status failure }
    ensures range { (0 < result) × (result < 3) }
{
    match failure {
        Failure::Usage => 2,
        _ => 1,
    }
}

/// Hands on what was printed. Whether that could be done.
fn hand_on<W: Write>(out: &mut Printer<'_, W>) -> bool
    ensures more { IsMore out.old out.new }
    ensures kept { result ≡ true → Prints out.old out.new [] }
    ensures lost { result ≡ false → out.new.failed ≡ true }
    ensures handed_on { IsHandedOn out.new }
{
    match out.flush() {
        Ok(()) => true,
        Err(_) => false,
    }
}

/// Prints why a task was not done, where that is not printed yet.
fn tell<W: Write>(command: &str, failure: Failure, out: &mut Printer<'_, W>) -> Result<(), Failure>
    ensures told { (before : Told) → IsMore before out.old → Says before out.old failure
        → IsTold before out.new }
    ensures line { OnOk result (PrintsLast command.now failure out.old out.new) }
    ensures lost { OnErr result (out.new.failed ≡ true) }
    ensures more { IsMore out.old out.new }
{
    match failure {
        Failure::Printed | Failure::Output => Ok(()),
        Failure::Usage => write!(out, "{}", Usage { command }),
        failure => writeln!(out, "{failure}"),
    }
}

/// Does what the words ask for.
fn carry_out<R: Threads + Wait + Sync + Send + Copy + 'static, F: Files, W: Write>(
    machine: Machine<'_, R>,
    words: &[String],
    files: &mut F,
    out: &mut Printer<'_, W>,
) -> Result<(), Failure>
    ensures tells { Tells out.old out.new result }
    ensures usage { result ≡ Err Failure.Usage → out.new.failed ≡ out.old.failed }
    ensures carries { CarriesOut (map string_bytes words.now)
        (known_files F.is_known (F.bytes files.old) (F.bytes files.new)
        (F.input_bytes files.old)) out.old out.new result }
    ensures files { KeepsFiles F.is_known (map string_bytes words.now) (F.bytes files.old)
        (F.bytes files.new) }
{
    match parse(machine.alloc, words) {
        Ok(task) => do_task(machine, files, &task, out),
        Err(WordsFault::Memory) => Err(Failure::Memory),
        Err(WordsFault::Usage) => Err(Failure::Usage),
    }
}

/// Does a task.
fn do_task<R: Threads + Wait + Sync + Send + Copy + 'static, F: Files, W: Write>(
    machine: Machine<'_, R>,
    files: &mut F,
    task: &Task<'_>,
    out: &mut Printer<'_, W>,
) -> Result<(), Failure>
    ensures tells { Tells out.old out.new result }
    ensures comes { Comes task.now
        (known_files F.is_known (F.bytes files.old) (F.bytes files.new)
        (F.input_bytes files.old)) out.old out.new result }
    ensures files { LeavesFiles F.is_known task.now (F.bytes files.old) (F.bytes files.new) }
{
    let alloc = machine.alloc;
    match task {
        Task::Check { module, profile } => check(alloc, files, module, *profile, out),
        Task::Digest { module, profile } => digest(alloc, files, module, *profile, out),
        Task::Public { keys } => public(alloc, files, keys, out),
        Task::Version { has_table } => version(alloc, *has_table, out),
        Task::Work { begin, work } => with_genesis(machine, files, begin, work, out),
    }
}

/// Does what is asked for of the genesis in a file, with the modules and the seeds of other files at
/// hand.
fn with_genesis<R: Threads + Wait + Sync + Send + Copy + 'static, F: Files, W: Write>(
    machine: Machine<'_, R>,
    files: &mut F,
    begin: &Beginning<'_>,
    work: &Work<'_>,
    out: &mut Printer<'_, W>,
) -> Result<(), Failure>
    ensures tells { Tells out.old out.new result }
    ensures works { let k = known_files F.is_known (F.bytes files.old) (F.bytes files.new)
        (F.input_bytes files.old) in
        WithGenesis k begin.now (λ log. Works log work.now k) out.old out.new result }
    ensures files { Leaves F.is_known work.now (F.bytes files.old) (F.bytes files.new) }
{
    let log = opened(machine.alloc, files, begin)?;
    do_work(machine, files, Subject { begin, log: &log }, work, out)
}

/// Does what is asked for of a genesis.
fn do_work<R: Threads + Wait + Sync + Send + Copy + 'static, F: Files, W: Write>(
    machine: Machine<'_, R>,
    files: &mut F,
    subject: Subject<'_>,
    work: &Work<'_>,
    out: &mut Printer<'_, W>,
) -> Result<(), Failure>
    ensures tells { Tells out.old out.new result }
    ensures works { Works subject.entry.log.now work.now
        (known_files F.is_known (F.bytes files.old) (F.bytes files.new)
        (F.input_bytes files.old)) out.old out.new result }
    ensures files { Leaves F.is_known work.now (F.bytes files.old) (F.bytes files.new) }
{
    let Machine { rt, alloc } = machine;
    let Subject { begin, log } = subject;
    let genesis = &log.genesis;
    let workers = workers_of(rt);
    match work {
        Work::Simulate { proposal, store } => {
            let simulated = Simulated {
                proposal,
                store: *store,
            };
            simulate(&workers, alloc, files, genesis, &simulated, out)
        }
        Work::Run { events, store } => {
            let names = RunFiles {
                genesis: begin.genesis,
                events,
                modules: begin.modules,
                keys: begin.keys,
                store: *store,
            };
            run_events(&workers, alloc, files, genesis, &names, out)
        }
        Work::Threads { chaincode, rounds } => {
            threads(rt, alloc, files, genesis, chaincode, *rounds, out)
        }
        Work::Audit { store } => audit(&workers, alloc, files, genesis, store, out),
        Work::Show { store, from, to } => {
            let span = Span {
                from: *from as usize,
                to: *to as usize,
            };
            show(&workers, alloc, files, genesis, &Shown { store, span }, out)
        }
        Work::State { store, at, part } => {
            let asked = Asked {
                store,
                at: *at as usize,
                part: part_of(part),
            };
            state(&workers, alloc, files, genesis, &asked, out)
        }
        Work::Trace { call, most } => trace(alloc, genesis, call, *most, out),
        Work::Peer { org, store } => {
            let asked = Peering {
                org: org.as_ref(),
                store,
            };
            peer(&workers, alloc, files, log, &asked, out)
        }
        Work::Marks { store } => marks(&workers, alloc, files, genesis, store, out),
        Work::Checkpoint { store, file } => {
            let asked = Checkpointing {
                genesis: begin.genesis,
                store,
                file,
            };
            checkpoint(&workers, alloc, files, log, &asked, out)
        }
    }
}

/// Runs a file of events. What is wrong with the chain at its end is printed.
fn run_events<T: Threads + Sync, F: Files, W: Write>(
    workers: &Workers<'_, T>,
    alloc: Global,
    files: &mut F,
    genesis: &Genesis,
    names: &RunFiles<'_>,
    out: &mut Printer<'_, W>,
) -> Result<(), Failure>
    ensures tells { Tells out.old out.new result }
    ensures answers { Answers (Runs genesis.now
        (known_files F.is_known (F.bytes files.old) (F.bytes files.new)
        (F.input_bytes files.old)) names.now.events.now
        (option_map (λ s. s.now) names.now.store)) out.old out.new result }
    ensures begins { Begins (RunBegins genesis.now (F.bytes files.old names.now.events.now))
        out.old out.new result }
    ensures stays { SparesStore F.is_known (option_map (λ s. s.now) names.now.store)
        (F.bytes files.old) (F.bytes files.new) result }
    ensures kept { names.now.store ≡ None → F.bytes files.new ≡ F.bytes files.old }
    ensures others { IfSome names.now.store
        (λ s. ChangesOnly F.is_known (whole_names s.now) (F.bytes files.old) (F.bytes files.new)) }
    ensures spares { IfSome names.now.store
        (λ s. WhereNoStore F.is_known (F.bytes files.old) s.now
        (F.bytes files.new ≡ F.bytes files.old)) }
{
    answer_of(run(workers, alloc, files, genesis, names, out))
}

/// What is asked for of a state.
fn part_of(part: &StatePart) -> Part<'_>
    ensures { IsPart part.now result }
{
    match part {
        StatePart::Entries => Part::Entries,
        StatePart::Writes(key) => Part::Writes(key),
        StatePart::Members => Part::Members,
    }
}

/// As many workers as the machine has cores, 16 at most; one where that is not known.
fn workers_of<R: Threads>(rt: &R) -> Workers<'_, R> {
    let cores = match available_parallelism(rt) {
        Ok(cores) => cores.get(),
        Err(_) => 1,
    };
    Workers::new(rt, cores)
}
