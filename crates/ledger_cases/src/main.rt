//! Calls of the WebAssembly crates, of the ledger's and of Ed25519: cases as data, and with a word
//! signatures that are timed or counted.
//!
//! Without a word a line of the input is a case, and the line of the output with the same number is
//! its answer. A line is a verb and its words, and may have a note behind ` #`. Lines that are empty
//! or begin with `#` are printed as they are, and `bad line` stands for what is no case. In HEX
//! bytes are pieces with blanks between them; a piece with `*N` behind it stands N times.
//!
//! Of modules. One is read by profile 1, and by profile N where `by N` stands in front of the verb;
//! one that is refused is answered by `fault NUMBER at OFFSET` or `invalid NUMBER`:
//!
//! - `items KINDS HEX`: the items at the front of the bytes, in order, by their kinds, as
//!   `byte,u32,i32,i64,name`; the kind `at` is the offset of the place;
//! - `decode HEX`: how many parts of each kind the module has; `show HEX`: the module as `Debug`
//!   prints it; `validate HEX`: its entry and its host calls;
//! - `run FUEL HEX`: how its `invoke` ends with this fuel, without an argument, on a state without
//!   keys, and what it wrote; `trace FUEL HEX`: before that what each step of a stepper shows;
//!   `compare LAST HEX`: whether `run`, `run_by_reduction` and a stepper answer the same with every
//!   fuel from 0 to this; `answer ANSWER FUEL HEX`: how it ends on a host that answers each call
//!   so, with a number, or by a trap past the end of the memory where that is `past`;
//! - `position FUNCTION INSTRUCTION`: the place of an instruction, as it is printed;
//! - `binary32 OP A B`, `compare32 OP A B`, `unary32 OP A`, `eqz32 A`, the same with 64, and
//!   `convert OP A`: what an operator gives for words in hex.
//!
//! Of the ledger's bytes:
//!
//! - `payload HEX`, `envelope HEX`, `block HEX`, `definition HEX`, `membership HEX`: the value that
//!   the bytes spell, and whether its own bytes are the same, or `refused NUMBER`;
//! - `tx_id HEX`: the id of the payload's proposal; `hashes HEX`: those of the block's header and
//!   data;
//! - `tag KEY HEX`: the tag of the bytes under the key, which is one piece;
//! - `bound NAME DIGEST HEX`: the signature of the bytes for the ledger whose genesis file has this
//!   digest, which is one piece, by the seed that is the name with zeros behind it.
//!
//! Of Ed25519, where SEED, KEY, MESSAGE and SIGNATURE are hex of one piece, and `-` is an empty
//! message:
//!
//! - `public SEED`: the public key of a secret seed of 32 bytes;
//! - `sign SEED MESSAGE`: the signature of the message under that key;
//! - `verify KEY MESSAGE SIGNATURE`: `good` where the signature is one of the message under the
//!   public key, else `bad`;
//! - `small_order KEY`: `small` where the key is one of the eight whose point has an order that
//!   divides 8, else `not small`;
//! - `key KEY`: `good` where the bytes are a point that is not of small order, else `bad`.
//!
//! Of policies, where names stand between commas and `-` is none:
//!
//! - `policy NAMES TEXT`: `policy` where the text spells one over the organisations of these names,
//!   or its fault; `satisfied NAMES NAMES TEXT`: whether the organisations named second satisfy it;
//! - `endorsed NAMES TAGS TEXT`: whether an envelope with these tags is endorsed. An organisation's
//!   shared key is its name; one with a `!` behind its name has a public key, whose seed is the
//!   name with zeros behind it. A tag is the name that it comes under, a sign, and the name of
//!   whose key makes it: `/` for an HMAC under the name, `!` for a signature by the seed, `~` for
//!   that one with a bit of its last byte turned, `?` for an HMAC under the seed's public key,
//!   `@` for a signature for the ledger of cases, whose digest has 32 bytes 07, and `*` for one for
//!   a ledger of 32 bytes 08. The text is the policy of calls and of upgrades, and of modules one
//!   is installed, of profile 1, whose digest has the byte 7. The envelope's transaction calls `kv`
//!   and reads its definition as absent; ` | WORDS` behind the text is another one, and ` / CHAIN`
//!   behind these a chain by whose state it is judged.
//!
//! `event TEXT` tells what a line of an events file asks for, with bytes in hex and `-` for none,
//! `genesis TEXT` what the genesis has that the text spells, or why it spells none, and
//! `modules TEXT` the same of a modules file.
//!
//! A transaction is words: `r:KEY@BLOCK.PLACE` and `r:KEY@-` for a key read and its version or
//! absence, `q:START..END*LIMIT=KEY@BLOCK.PLACE,..` for a range with the entries seen,
//! `w:KEY=VALUE` and `d:KEY` for a key put and deleted, `n:BYTE` for its nonce, `e:no` for one that
//! is not endorsed, and `u:BYTE,FUEL,POLICY` for an upgrade of `kv` to the module of profile 1
//! whose digest has this byte alone, in place of a call; `u2:` in place of `u:` is for profile 2,
//! and `u17:` and `u18:` are for an open definition of profile 1 or 2. `a:SERIAL,MEMBERS,POLICY`
//! is an amendment, with `+` between the members: a name, whose key is kept, or a name, `!` and
//! the name that is the seed of the member's own public key.
//! Bytes are written as they are where all of them are printed characters or blanks, and else in
//! hex behind `0x`. Transactions stand between ` | ` in a block, and blocks between ` / ` in a
//! chain. Where no nonce is said, each has its own.
//!
//! - `flags CHAIN`: the flags of each block, each judged after those before it;
//! - `state CHAIN`, `get KEY CHAIN`, `range START..END*LIMIT CHAIN`: the state after the chain so
//!   judged, what it has at a key, and its first entries of a range;
//! - `call STATE | ARGUMENT | MEMORY | CALL | ..`: what the host answers to each call of `kv` on the
//!   state that the writes leave, the memory after them, where it changed, and what was recorded. The
//!   argument and the memory are in hex, and a call is its name and its numbers;
//! - `simulate NAME FUEL HEX | ARGUMENT | ..`: the payload or the refusal of each call of `kv` by
//!   the book that has the module of profile 1 under a name, on the state that the earlier calls
//!   leave; `simulate2 ..` the same of profile 2. What begins with such a word and a colon is an
//!   upgrade or an amendment, as above: the module's digest has the byte 7, and `A` is an
//!   organisation.
//!
//! `under 2` in front of `endorsed` and of these verbs asks for their answer under rules 2.
//!
//! With a word, for `bench/run` and `bench/instructions`:
//!
//! - `ledger_cases verify` verifies the signature of each line of the input, `SEED KEY MESSAGE
//!   SIGNATURE`, and `sign` signs the message of each with the key of the seed. Each prints how many
//!   there were and how many microseconds of processor time that took. Lines are read before that,
//!   and keys are made of seeds.
//! - `once` reads 32 bytes, and writes the 64 bytes of the signature of 64 zeros under the key of
//!   that seed. It treats all seeds alike, but for what signing does with them.
//!
//! The exit status is 0 for done, 1 for a failure, and 2 where the words name no task.
#![tactic(auto)]

mod bytes;
mod calls;
mod cases;
mod chains;
mod decoding;
mod event_lines;
mod fault;
mod genesis_files;
mod hosts;
mod items;
mod modules;
mod operators;
mod policies;
mod runs;
mod signatures;
mod simulations;
mod steps;
mod tags;
mod texts;
mod timing;
mod transactions;

use crate::cases::{answer_case, without_note};
use crate::fault::CaseFault;
use crate::timing::carry_out;
use std::env;
use std::io::{self, BufRead, BufReader, Write};
use std::process::ExitCode;

fn main(rt: HostRuntime) -> io::Result<ExitCode> {
    let words: Vec<String> = env::args(&rt)?.skip(1).collect(rt.alloc())?;
    let done = match words.as_slice() {
        [] => Ok(answer_lines(&rt)?),
        [word] => carry_out(&rt, word.as_str()),
        _ => Err(CaseFault::Usage),
    };
    let Err(fault) = done else {
        return Ok(ExitCode::from(0));
    };
    println!(rt; "{fault}")?;
    Ok(ExitCode::from(match fault {
        CaseFault::Usage => 2,
        _ => 1,
    }))
}

/// Answers each line of the input.
fn answer_lines(rt: &HostRuntime) -> io::Result<()> {
    let alloc = rt.alloc();
    for line in BufReader::new(alloc, rt.reader())?.lines(alloc) {
        answer_line(rt, line?.as_str())?;
    }
    Ok(())
}

/// Answers a line: a comment by itself, a case by what it gives or by its fault.
fn answer_line(rt: &HostRuntime, line: &str) -> io::Result<()> {
    if line.is_empty() || line.starts_with('#') {
        return println!(rt; "{line}");
    }
    match answer_case(rt.alloc(), without_note(line)) {
        Ok(answer) => println!(rt; "{answer}"),
        Err(fault) => println!(rt; "{fault}"),
    }
}
