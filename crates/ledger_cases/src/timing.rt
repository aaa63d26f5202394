//! What the words of the command line ask: signatures that are timed or counted.

use crate::bytes::split_word;
use crate::fault::CaseFault;
use crate::signatures::message_of;
use ed25519::{SigningKey, sign, verify};
use hex::FromHex;
use std::alloc::Global;
use std::io::{self, BufRead, BufReader, Read, Write};
use std::time::{CpuClock, Duration};

/// Does what a word says.
pub fn carry_out(rt: &HostRuntime, word: &str) -> Result<(), CaseFault> {
    match word {
        "verify" => verify_lines(rt),
        "sign" => sign_lines(rt),
        "once" => sign_seed(rt),
        _ => Err(CaseFault::Usage),
    }
}

/// Verifies the signatures of the lines.
fn verify_lines(rt: &HostRuntime) -> Result<(), CaseFault> {
    let all = read_signed(rt.alloc(), rt.reader())?;
    let micros = verify_all(rt, &all)?;
    Ok(tell(rt, all.len(), micros)?)
}

/// Signs the messages of the lines.
fn sign_lines(rt: &HostRuntime) -> Result<(), CaseFault> {
    let all = read_signed(rt.alloc(), rt.reader())?;
    let micros = sign_all(rt, rt.alloc(), &all)?;
    Ok(tell(rt, all.len(), micros)?)
}

/// So many were done in so many microseconds.
fn tell(rt: &HostRuntime, count: usize, micros: u64) -> io::Result<()> {
    println!(rt; "done {count} micros {micros}")
}

/// Signs 64 zeros with the seed that the input is.
fn sign_seed(rt: &HostRuntime) -> Result<(), CaseFault> {
    let mut seed = [0; 32];
    rt.reader().read_exact(&mut seed)?;
    Ok(io::writer(rt).write_all(&sign(&seed, &[0; 64]))?)
}

/// A signature, and the seed, the key and the message that it is of.
#[derive(Drop)]
struct Signed {
    seed: [u8; 32],
    key: [u8; 32],
    signature: [u8; 64],
    message: Vec<u8>,
}

/// The signature of each line of the input.
fn read_signed<R: Read + Drop>(alloc: Global, input: R) -> Result<Vec<Signed>, CaseFault> {
    let mut all = Vec::new(alloc);
    for line in BufReader::new(alloc, input)?.lines(alloc) {
        all.push(of_line(alloc, line?.as_str())?)?;
    }
    Ok(all)
}

/// The signature of a line.
fn of_line(alloc: Global, line: &str) -> Result<Signed, CaseFault> {
    let (seed, rest) = split_word(line);
    let (key, rest) = split_word(rest);
    let (message, signature) = split_word(rest);
    Ok(Signed {
        seed: <[u8; 32] as FromHex>::from_hex(seed)?,
        key: <[u8; 32] as FromHex>::from_hex(key)?,
        signature: <[u8; 64] as FromHex>::from_hex(signature)?,
        message: message_of(alloc, message)?,
    })
}

/// The microseconds of processor time in which each signature is verified. All have to be good.
fn verify_all<R: CpuClock>(rt: &R, all: &[Signed]) -> Result<u64, CaseFault> {
    let start = now(rt)?;
    let mut good = true;
    for one in all {
        good &= verify(&one.key, &one.message, &one.signature);
    }
    micros_since(rt, start, good)
}

/// The microseconds of processor time in which each message is signed. All signatures have to be
/// those of the lines.
fn sign_all<R: CpuClock>(rt: &R, alloc: Global, all: &[Signed]) -> Result<u64, CaseFault> {
    let keys = keys_of(alloc, all)?;
    let start = now(rt)?;
    let mut good = true;
    for (key, one) in keys.iter().zip(all) {
        good &= key.sign(&one.message) == one.signature;
    }
    micros_since(rt, start, good)
}

/// The key of each seed.
fn keys_of(alloc: Global, all: &[Signed]) -> Result<Vec<SigningKey>, CaseFault> {
    let mut keys = Vec::new(alloc);
    for one in all {
        keys.push(SigningKey::new(&one.seed))?;
    }
    Ok(keys)
}

/// The processor time used so far.
fn now<R: CpuClock>(rt: &R) -> Result<Duration, CaseFault> {
    match rt.process_cpu_time() {
        Ok(now) => Ok(now),
        Err(_) => Err(CaseFault::Clock),
    }
}

/// The microseconds used since, if what was done was good.
fn micros_since<R: CpuClock>(rt: &R, start: Duration, good: bool) -> Result<u64, CaseFault> {
    if !good {
        return Err(CaseFault::Signature);
    }
    let took = now(rt)?.saturating_sub(start);
    Ok(u64::try_from(took.as_micros()).unwrap_or(u64::MAX))
}
