//! Cases `event TEXT`: what a line of an events file asks for.

use crate::texts::{write_amendment, write_characters, write_hex, write_upgrade};
use fab_types::Proposal;
use json_events::{Action, BadLine, read_event};
use std::alloc::{AllocError, Global};
use std::fmt::Write;

/// The answer of a case.
pub fn event_line(alloc: Global, text: &str) -> Result<String, AllocError> {
    match read_event(alloc, text) {
        Ok(action) => shown(alloc, &action),
        Err(BadLine::NoForm) => String::from_str(alloc, "bad line"),
        Err(BadLine::Memory) => String::from_str(alloc, "refused 9"),
    }
}

fn shown(alloc: Global, action: &Action) -> Result<String, AllocError> {
    let mut text = String::new(alloc);
    write_action(&mut text, action)?;
    Ok(text)
}

fn write_action(text: &mut String, action: &Action) -> Result<(), AllocError> {
    match action {
        Action::Begin {
            peer,
            seat,
            proposal,
        } => {
            write!(text, "begin {peer}.{seat} ")?;
            write_asked(text, proposal)?;
            text.push(' ')?;
            write_hex_or_none(text, proposal.nonce().as_slice())
        }
        Action::Finish { peer, seat, name } => write!(text, "finish {peer}.{seat} {name}"),
        Action::SubmitEndorsed(names) => write_use(text, names),
        Action::SubmitBytes(bytes) => {
            text.push_str("hex ")?;
            write_hex_or_none(text, bytes)
        }
        Action::Take => text.push_str("take"),
        Action::Tick => text.push_str("tick"),
        Action::Commit { peer } => write!(text, "commit {peer}"),
    }
}

/// What a proposal asks for.
fn write_asked(text: &mut String, proposal: &Proposal) -> Result<(), AllocError> {
    match proposal {
        Proposal::Call(call) => {
            write_characters(text, call.chaincode.as_slice())?;
            text.push(' ')?;
            write_hex_or_none(text, call.argument.as_slice())
        }
        Proposal::Upgrade(upgrade) => write_upgrade(text, &upgrade.chaincode, &upgrade.definition),
        Proposal::Amend(amend) => write_amendment(text, &amend.membership),
    }
}

fn write_use(text: &mut String, names: &[String]) -> Result<(), AllocError> {
    text.push_str("use")?;
    for name in names {
        text.push(' ')?;
        text.push_str(name.as_str())?;
    }
    Ok(())
}

/// Bytes in hex; `-` for none.
fn write_hex_or_none(text: &mut String, bytes: &[u8]) -> Result<(), AllocError> {
    if bytes.is_empty() {
        return text.push('-');
    }
    write_hex(text, bytes)
}
