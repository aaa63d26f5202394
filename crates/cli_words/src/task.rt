//! What the words ask for.

ghost use Rattle.std.specs.Prelude.{◌≡◌, None, codes, map, replicate, string_bytes, IfErr};
ghost use Rattle.clap.specs.Walk.{first_of};
ghost use Rattle.cli_words.specs.Words.{Has, IsCallBy, IsChaincodeBy, IsPartBy, IsProfileBy, IsTaskAs, IsTaskOf, IsWorkAs, IsWorkTask, MayHave, OrElse, Reads, SpellsArgument, SpellsBlock, SpellsCount, SpellsKey, SpellsNonce, SpellsOrg, SpellsProfile, is_given, rows_in, text_of};

use crate::commands::commands;
use clap::ArgMatches;
use clap::error::ErrorKind;
use fab_types::limits::LAST_BLOCK;
use fab_types::{Call, Key, Name, OrgName, Proposal, Value};
use hex::{FromHex, FromHexError};
use std::alloc::{AllocError, Global};
use wasm_profile::Profile;

/// How many rounds `threads` runs at most, and how many steps `trace` shows at most.
const MOST_COUNT: u32 = 1_000;

/// What the words ask for. Texts are names of files.
#[derive(Drop)]
pub enum Task<'a> {
    /// Tell whether the bytes of a file are a valid module of a profile.
    Check {
        module: &'a str,
        profile: Profile,
    },
    /// Tell the digest of the bytes of a file that are a valid module of a profile.
    Digest {
        module: &'a str,
        profile: Profile,
    },
    /// Tell the public keys of a key file.
    Public {
        keys: &'a str,
    },
    /// Tell the numbers of the program, its lines, its rules and its stores, or the table of what
    /// its words stand for.
    Version {
        has_table: bool,
    },
    /// Do this with the chaincodes, organisations and peers of a genesis.
    Work {
        begin: Beginning<'a>,
        work: Work<'a>,
    },
}

/// The names of the files that a command with a genesis begins with.
#[derive(Clone, Copy, Drop)]
pub struct Beginning<'a> {
    pub genesis: &'a str,
    /// More modules at hand. `State`, `Trace`, `Marks` and `Checkpoint` have none.
    pub modules: Option<&'a str>,
    /// Seeds at hand. Only `Run`, `Threads` and `Peer` have them.
    pub keys: Option<&'a str>,
}

/// What is asked for of a genesis.
#[derive(Drop)]
pub enum Work<'a> {
    /// Simulate this call, on the state after a store if there is one.
    Simulate {
        proposal: Proposal,
        store: Option<&'a str>,
    },
    /// Run the events of a file, and write the chain of the first peer to a store if there is one.
    Run {
        events: &'a str,
        store: Option<&'a str>,
    },
    /// Let the seats of the first peer endorse so many calls each, on threads of their own.
    Threads {
        chaincode: Name,
        rounds: u32,
    },
    /// Commit a store's chain again, and audit it.
    Audit {
        store: &'a str,
    },
    /// Show the blocks of a store from one number to another.
    Show {
        store: &'a str,
        from: u32,
        to: u32,
    },
    /// Show this part of the state after the block of a number.
    State {
        store: &'a str,
        at: u32,
        part: StatePart,
    },
    /// Show this many steps at most of this call, on the empty state.
    Trace {
        call: Call,
        most: u32,
    },
    /// Read a log that comes line by line, commit its blocks to a store, and answer between its
    /// lines, for an organisation if there is one.
    Peer {
        org: Option<OrgName>,
        store: &'a str,
    },
    /// Show the marks by which a store's blocks are cut from nothing.
    Marks {
        store: &'a str,
    },
    /// Write a checkpoint of a store's chain to a file.
    Checkpoint {
        store: &'a str,
        file: &'a str,
    },
}

/// What of a state is shown.
#[derive(Drop)]
pub enum StatePart {
    /// Its entries.
    Entries,
    /// Each write to this key up to it.
    Writes(Key),
    /// Who stands there.
    Members,
}

/// Why the words name no task.
#[derive(Clone, Copy, Debug, PartialEq, Eq)]
pub enum WordsFault {
    Memory,
    Usage,
}

impl From<AllocError> for WordsFault {
    ghost use Rattle.cli_words.specs.declared.task.WordsFault.TheVariants.{Memory};

    ghost from_gives = { λ _ fault. fault ≡ Memory };

    fn from(_error: AllocError) -> WordsFault {
        WordsFault::Memory
    }
}

impl From<FromHexError> for WordsFault {
    ghost use Rattle.std.specs.Prelude.{◌≢◌};
    ghost use Rattle.hex.specs.declared.error.FromHexError.TheVariants.{OutOfMemory};
    ghost use Rattle.cli_words.specs.declared.task.WordsFault.TheVariants.{Usage};

    ghost from_gives = { λ error fault. fault ≡ Usage → error ≢ OutOfMemory };

    fn from(error: FromHexError) -> WordsFault {
        match error {
            FromHexError::OutOfMemory => WordsFault::Memory,
            _ => WordsFault::Usage,
        }
    }
}

impl From<clap::Error> for WordsFault {
    ghost use Rattle.std.specs.Prelude.{◌≢◌};
    ghost use Rattle.clap.specs.Values.{kind_of};
    ghost use Rattle.clap.specs.declared.error.kind.ErrorKind.TheVariants.{OutOfMemory};
    ghost use Rattle.cli_words.specs.declared.task.WordsFault.TheVariants.{Usage};

    ghost from_gives = { λ error fault. fault ≡ Usage → kind_of error ≢ OutOfMemory };

    fn from(error: clap::Error) -> WordsFault {
        if error.kind() == ErrorKind::OutOfMemory {
            WordsFault::Memory
        } else {
            WordsFault::Usage
        }
    }
}

/// The task that the words name, the command first.
///
/// Usage where they are no command; where a word or an option's value is missing, left over, or no
/// hex, count, name, key, number of a block or profile within its limits; and where an option is
/// none of the command's, stands twice, or is `--key` beside `--members`.
pub fn parse<'a>(alloc: Global, words: &'a [String]) -> Result<Task<'a>, WordsFault>
    ensures { Reads (IsTaskOf (map string_bytes words.now)) result }
{
    let Some(name) = words.first() else {
        return Err(WordsFault::Usage);
    };
    let ledger = commands(alloc)?;
    let matches = ledger.try_get_matches_from(words)?;
    match matches.subcommand() {
        Some((_, command)) => task_of(alloc, name, command),
        None => Err(WordsFault::Usage),
    }
}

/// What a command of this name asks for, by what was matched behind the name.
fn task_of<'a>(alloc: Global, name: &str, command: &ArgMatches<'a>) -> Result<Task<'a>, WordsFault>
    ensures { Reads (IsTaskAs name.now (rows_in command.now)) result }
{
    match name {
        "check" => check(command),
        "digest" => digest(command),
        "public" => public(command),
        "version" => Ok(Task::Version {
            has_table: flag(command, "table"),
        }),
        name => of_genesis(alloc, name, command),
    }
}

fn check<'a>(command: &ArgMatches<'a>) -> Result<Task<'a>, WordsFault>
    ensures { Reads (IsTaskAs (codes "check") (rows_in command.now)) result }
{
    let module = text(command, "MODULE")?;
    let profile = profile_of(command)?;
    Ok(Task::Check { module, profile })
}

fn digest<'a>(command: &ArgMatches<'a>) -> Result<Task<'a>, WordsFault>
    ensures { Reads (IsTaskAs (codes "digest") (rows_in command.now)) result }
{
    let module = text(command, "MODULE")?;
    let profile = profile_of(command)?;
    Ok(Task::Digest { module, profile })
}

fn public<'a>(command: &ArgMatches<'a>) -> Result<Task<'a>, WordsFault>
    ensures { Reads (IsTaskAs (codes "public") (rows_in command.now)) result }
{
    let keys = text(command, "KEYS")?;
    Ok(Task::Public { keys })
}

/// What a command of this name asks for of a genesis. A command without the option `modules` has no
/// modules file, and one without `keys` no key file.
fn of_genesis<'a>(
    alloc: Global,
    name: &str,
    command: &ArgMatches<'a>,
) -> Result<Task<'a>, WordsFault>
    ensures { Reads (IsWorkTask name.now (rows_in command.now)) result }
{
    let begin = Beginning {
        genesis: text(command, "GENESIS")?,
        modules: option(command, "modules"),
        keys: option(command, "keys"),
    };
    let work = work_of(alloc, name, command)?;
    Ok(Task::Work { begin, work })
}

/// What a command of this name asks for.
fn work_of<'a>(alloc: Global, name: &str, command: &ArgMatches<'a>) -> Result<Work<'a>, WordsFault>
    ensures { Reads (IsWorkAs name.now (rows_in command.now)) result }
{
    match name {
        "sim" => simulate(alloc, command),
        "run" => run(command),
        "threads" => threads(command),
        "audit" => audit(command),
        "show" => show(command),
        "state" => state(alloc, command),
        "trace" => trace(alloc, command),
        "peer" => peer(command),
        "marks" => marks(command),
        "checkpoint" => checkpoint(command),
        _ => Err(WordsFault::Usage),
    }
}

fn simulate<'a>(alloc: Global, command: &ArgMatches<'a>) -> Result<Work<'a>, WordsFault>
    ensures { Reads (IsWorkAs (codes "sim") (rows_in command.now)) result }
{
    Ok(Work::Simulate {
        proposal: Proposal::Call(call(alloc, command, option(command, "nonce"))?),
        store: option(command, "store"),
    })
}

fn run<'a>(command: &ArgMatches<'a>) -> Result<Work<'a>, WordsFault>
    ensures { Reads (IsWorkAs (codes "run") (rows_in command.now)) result }
{
    Ok(Work::Run {
        events: text(command, "EVENTS")?,
        store: option(command, "store"),
    })
}

fn threads<'a>(command: &ArgMatches<'a>) -> Result<Work<'a>, WordsFault>
    ensures { Reads (IsWorkAs (codes "threads") (rows_in command.now)) result }
{
    Ok(Work::Threads {
        rounds: count(text(command, "ROUNDS")?)?,
        chaincode: chaincode(command)?,
    })
}

fn audit<'a>(command: &ArgMatches<'a>) -> Result<Work<'a>, WordsFault>
    ensures { Reads (IsWorkAs (codes "audit") (rows_in command.now)) result }
{
    Ok(Work::Audit {
        store: text(command, "STORE")?,
    })
}

fn show<'a>(command: &ArgMatches<'a>) -> Result<Work<'a>, WordsFault>
    ensures { Reads (IsWorkAs (codes "show") (rows_in command.now)) result }
{
    Ok(Work::Show {
        store: text(command, "STORE")?,
        from: block_under(command, "from", 1)?,
        to: block_under(command, "to", LAST_BLOCK)?,
    })
}

fn state<'a>(alloc: Global, command: &ArgMatches<'a>) -> Result<Work<'a>, WordsFault>
    ensures { Reads (IsWorkAs (codes "state") (rows_in command.now)) result }
{
    Ok(Work::State {
        store: text(command, "STORE")?,
        at: block_under(command, "at", LAST_BLOCK)?,
        part: state_part(alloc, command)?,
    })
}

fn trace<'a>(alloc: Global, command: &ArgMatches<'a>) -> Result<Work<'a>, WordsFault>
    ensures { Reads (IsWorkAs (codes "trace") (rows_in command.now)) result }
{
    Ok(Work::Trace {
        most: steps(command)?,
        call: call(alloc, command, None)?,
    })
}

fn marks<'a>(command: &ArgMatches<'a>) -> Result<Work<'a>, WordsFault>
    ensures { Reads (IsWorkAs (codes "marks") (rows_in command.now)) result }
{
    Ok(Work::Marks {
        store: text(command, "STORE")?,
    })
}

fn checkpoint<'a>(command: &ArgMatches<'a>) -> Result<Work<'a>, WordsFault>
    ensures { Reads (IsWorkAs (codes "checkpoint") (rows_in command.now)) result }
{
    Ok(Work::Checkpoint {
        store: text(command, "STORE")?,
        file: text(command, "FILE")?,
    })
}

fn peer<'a>(command: &ArgMatches<'a>) -> Result<Work<'a>, WordsFault>
    ensures { Reads (IsWorkAs (codes "peer") (rows_in command.now)) result }
{
    Ok(Work::Peer {
        org: organisation(command)?,
        store: text(command, "STORE")?,
    })
}

/// The text of a word that has to be there.
fn text<'a>(command: &ArgMatches<'a>, name: &str) -> Result<&'a str, WordsFault>
    ensures reads { Reads (λ text. Has (rows_in command.now) name.now text.now) result }
    ensures missing { IfErr result (λ _. first_of name.now (rows_in command.now) ≡ None) }
{
    option(command, name).ok_or(WordsFault::Usage)
}

/// The text of an option, or of a word, if it is there.
fn option<'a>(command: &ArgMatches<'a>, name: &str) -> Option<&'a str>
    ensures { MayHave (rows_in command.now) name.now result }
{
    command.get_str(name)
}

/// Whether an option without a value is there.
fn flag(command: &ArgMatches<'_>, name: &str) -> bool
    ensures { result ≡ is_given (rows_in command.now) name.now }
{
    command.get_one(name).unwrap_or(false)
}

/// The number that digits stand for, from 1 to 1000.
pub(crate) fn count(digits: &str) -> Result<u32, WordsFault>
    ensures { Reads (SpellsCount digits.now) result }
{
    match digits.parse::<u32>() {
        Ok(count) if (1..=MOST_COUNT).contains(&count) => Ok(count),
        _ => Err(WordsFault::Usage),
    }
}

/// The number of a block that digits stand for, from 0 to 4,000,000,000.
pub(crate) fn block(digits: &str) -> Result<u32, WordsFault>
    ensures { Reads (SpellsBlock digits.now) result }
{
    match digits.parse::<u32>() {
        Ok(number) if number <= LAST_BLOCK => Ok(number),
        _ => Err(WordsFault::Usage),
    }
}

/// The number of a block under the name of an option, or else this other one.
fn block_under(command: &ArgMatches<'_>, name: &str, other: u32) -> Result<u32, WordsFault>
    ensures { Reads (OrElse SpellsBlock other (first_of name.now (rows_in command.now))) result }
{
    match option(command, name) {
        Some(digits) => block(digits),
        None => Ok(other),
    }
}

/// How many steps `trace` shows at most: all that it may, where the words say no number.
fn steps(command: &ArgMatches<'_>) -> Result<u32, WordsFault>
    ensures { Reads (OrElse SpellsCount 1000 (first_of (codes "steps") (rows_in command.now)))
        result }
{
    match option(command, "steps") {
        Some(digits) => count(digits),
        None => Ok(MOST_COUNT),
    }
}

/// What of a state the words ask for: of a key and the members one at most.
fn state_part(alloc: Global, command: &ArgMatches<'_>) -> Result<StatePart, WordsFault>
    ensures { Reads (IsPartBy (rows_in command.now)) result }
{
    match (option(command, "key"), flag(command, "members")) {
        (None, false) => Ok(StatePart::Entries),
        (Some(digits), false) => Ok(StatePart::Writes(key(alloc, digits)?)),
        (None, true) => Ok(StatePart::Members),
        (Some(_), true) => Err(WordsFault::Usage),
    }
}

/// The key that hex stands for.
pub(crate) fn key(alloc: Global, digits: &str) -> Result<Key, WordsFault>
    ensures { Reads (SpellsKey digits.now) result }
{
    Key::new(hex::decode(alloc, digits)?).ok_or(WordsFault::Usage)
}

/// The profile by whose number the words ask for a module. It is 1 where they name none.
fn profile_of(command: &ArgMatches<'_>) -> Result<Profile, WordsFault>
    ensures { Reads (IsProfileBy (rows_in command.now)) result }
{
    match option(command, "profile") {
        Some(digits) => profile(digits),
        None => Ok(Profile::Core1),
    }
}

/// The profile of a number, `1` or `2`.
pub(crate) fn profile(digits: &str) -> Result<Profile, WordsFault>
    ensures { Reads (SpellsProfile digits.now) result }
{
    match digits {
        "1" => Ok(Profile::Core1),
        "2" => Ok(Profile::SignExtension),
        _ => Err(WordsFault::Usage),
    }
}

/// The chaincode that the words name.
fn chaincode(command: &ArgMatches<'_>) -> Result<Name, WordsFault>
    ensures { Reads (IsChaincodeBy (rows_in command.now)) result }
{
    let name = text(command, "CHAINCODE")?;
    Name::from_slice(name.as_bytes()).ok_or(WordsFault::Usage)
}

/// The organisation that an option names, if it is there.
fn organisation(command: &ArgMatches<'_>) -> Result<Option<OrgName>, WordsFault>
    ensures { Reads (OrElse SpellsOrg None (first_of (codes "org") (rows_in command.now))) result }
{
    match option(command, "org") {
        Some(name) => spelled_organisation(name),
        None => Ok(None),
    }
}

/// The organisation of a name.
fn spelled_organisation(name: &str) -> Result<Option<OrgName>, WordsFault>
    ensures { Reads (SpellsOrg name.now) result }
{
    match OrgName::from_slice(name.as_bytes()) {
        Some(org) => Ok(Some(org)),
        None => Err(WordsFault::Usage),
    }
}

/// The bytes that hex stands for; none for `-`.
pub(crate) fn argument(alloc: Global, digits: &str) -> Result<Value, WordsFault>
    ensures { Reads (SpellsArgument digits.now) result }
{
    let bytes = match digits {
        "-" => Vec::new(alloc),
        digits => hex::decode(alloc, digits)?,
    };
    Value::new(bytes).ok_or(WordsFault::Usage)
}

/// The nonce that hex stands for.
pub(crate) fn nonce_of(digits: &str) -> Result<[u8; 16], WordsFault>
    ensures { Reads (SpellsNonce digits.now) result }
{
    Ok(<[u8; 16]>::from_hex(digits)?)
}

/// The nonce that hex stands for, if there is any, and else zeros.
fn nonce_or_zeros(digits: Option<&str>) -> Result<[u8; 16], WordsFault>
    ensures { Reads (OrElse SpellsNonce (replicate 16 0) (text_of digits.entry)) result }
{
    match digits {
        Some(digits) => nonce_of(digits),
        None => Ok([0; 16]),
    }
}

/// The call that words stand for, with this nonce, or with zeros.
fn call(alloc: Global, command: &ArgMatches<'_>, nonce: Option<&str>) -> Result<Call, WordsFault>
    ensures { Reads (IsCallBy (rows_in command.now) (text_of nonce.entry))
        result }
{
    let nonce = nonce_or_zeros(nonce)?;
    let argument = argument(alloc, text(command, "ARG")?)?;
    let chaincode = chaincode(command)?;
    Ok(Call {
        chaincode,
        argument,
        nonce,
    })
}
