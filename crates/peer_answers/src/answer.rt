//! What a peer answers to a line that asks for something.

use simulator::SimRefusal;
use std::fmt::{self, Display, Formatter, Write};
use store_devices::BlockFault;

/// Why a call is not endorsed.
#[derive(Clone, Copy)]
pub enum CallRefusal {
    /// The peer is nobody's, or no member of its organisation's name stands (806).
    Stranger,
    /// No seed is at hand of the key with which the organisation stands (808).
    Keyless,
    /// It is an amendment, to which the organisation has not agreed (409).
    NotAgreed,
    /// Its simulation is refused (401 to 404, 406 to 408).
    Simulation(SimRefusal),
}

impl Display for CallRefusal {
    ghost use Rattle.std.specs.Prelude.{Some};
    ghost use Rattle.peer_answers.specs.Spoken.{call_refusal_text};

    ghost output = { λ r. Some (call_refusal_text r) };

    fn fmt<W: Write>(&self, f: &mut Formatter<W>) -> fmt::Result {
        match self {
            CallRefusal::Stranger => f.write_str("refused 806"),
            CallRefusal::Keyless => f.write_str("refused 808"),
            CallRefusal::NotAgreed => f.write_str("refused 409"),
            CallRefusal::Simulation(refusal) => write!(f, "{refusal}"),
        }
    }
}

/// What a peer answers to a line that asks for something. Bytes are in hex.
#[derive(Drop)]
pub enum Answer {
    /// A payload and what the organisation puts on it.
    Endorsed {
        payload: String,
        endorsement: String,
    },
    /// Why a call is not endorsed.
    Refused(CallRefusal),
    /// Which hash the header of the organisation's block has, with its signature, if it stands with
    /// a public key whose seed is at hand.
    Seen {
        org: String,
        number: u32,
        hash: String,
        signature: Option<String>,
    },
    /// The answer to a question.
    Json(String),
    /// A block that a question asks for is not read back (703, 702).
    Lost(BlockFault),
    /// The words spell nothing of their kind, or there is no such block.
    Bad,
}

impl Display for Answer {
    ghost use Rattle.std.specs.Prelude.{Some};
    ghost use Rattle.peer_answers.specs.Spoken.{answer_text};

    ghost output = { λ a. Some (answer_text a) };

    fn fmt<W: Write>(&self, f: &mut Formatter<W>) -> fmt::Result {
        match self {
            Answer::Endorsed {
                payload,
                endorsement,
            } => write!(f, "endorsed {payload} {endorsement}"),
            Answer::Refused(refusal) => write!(f, "{refusal}"),
            Answer::Seen {
                org,
                number,
                hash,
                signature: None,
            } => write!(f, "seen {org} {number} {hash}"),
            Answer::Seen {
                org,
                number,
                hash,
                signature: Some(signature),
            } => write!(f, "seen {org} {number} {hash} {signature}"),
            Answer::Json(text) => write!(f, "{text}"),
            Answer::Lost(BlockFault::Memory) => f.write_str("refused 9"),
            Answer::Lost(BlockFault::Device) => f.write_str("refused 703"),
            Answer::Lost(BlockFault::Damaged(number)) => { write!(f, "refused 702 block {number}") }
            Answer::Bad => f.write_str("bad"),
        }
    }
}
