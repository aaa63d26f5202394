//! Why the host refuses a call of chaincode.

ghost use Rattle.std.specs.Prelude.{◌≡◌, ◌<◌, ◌-◌, ◌^◌};
ghost use Rattle.wasm_ast.specs.declared.host_call.HostAnswer.TheVariants as host_answer;
ghost use Rattle.host_api.specs.Refusals.{refusal_number};

use wasm_ast::HostAnswer;

/// Why a call is refused. Chaincode gets its number k as the answer -k.
#[derive(Clone, Copy, Debug, PartialEq, Eq)]
pub enum Refusal {
    /// The key is absent.
    Absent,
    /// A key or a bound has a wrong length, a key begins with the byte 0, or one that is written is
    /// not in the chaincode's namespace.
    KeyLength,
    /// There is no room for one more key or range.
    NoRoom,
    /// The value is too long.
    ValueLength,
    /// A range is asked for no entries, or for too many.
    Limit,
}

impl Refusal {
    /// Its number, from 1 on.
    pub fn number(self) -> u32
        ensures value { result ≡ refusal_number self }
        ensures least { 0 < result }
    {
        match self {
            Refusal::Absent => 1,
            Refusal::KeyLength => 2,
            Refusal::NoRoom => 3,
            Refusal::ValueLength => 4,
            Refusal::Limit => 5,
        }
    }
}

/// The answer -k for the number k of a refusal, as a word.
pub fn negative(refusal: Refusal) -> HostAnswer
    ensures { result ≡ host_answer.Value (2 ^ 32 - refusal_number refusal) }
{
    HostAnswer::Value(u32::MAX - (refusal.number() - 1))
}
