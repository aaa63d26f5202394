//! The memory of chaincode, and the spans of it that a call names.

ghost use Rattle.std.specs.Prelude.{◌≡◌, ◌≤◌, ◌<◌, ◌+◌, ◌^◌, length, option_map};
ghost use Rattle.wasm_typing.specs.HostCalls.{arity};
ghost use Rattle.wasm_meaning.specs.Memory.{with_bytes};
ghost use Rattle.host_api.specs.Recorded.{Recorded};
ghost use Rattle.host_api.specs.HostStep.{nth, span_bytes, replies};
ghost use Rattle.host_api.specs.Reach.{reach};

use wasm_ast::{HostAnswer, HostCall};

/// Bytes of the memory: those from a pointer on, of a length. For a reply they are its room.
#[derive(Clone, Copy, Debug, PartialEq, Eq)]
pub struct Span {
    pub pointer: u32,
    pub len: u32,
}

impl Span {
    /// The span of two arguments of a call: the pointer, at a place, and the length behind it.
    pub fn at(args: &[u32], place: usize) -> Span
        requires { place + 1 < length args.now }
        ensures pointer { result.pointer ≡ nth args.now place }
        ensures len { result.len ≡ nth args.now (place + 1) }
    {
        Span {
            pointer: args[place],
            len: args[place + 1],
        }
    }

    /// The place behind its last byte.
    pub fn end(self) -> usize
        ensures { result ≡ self.pointer + self.len }
    {
        self.pointer as usize + self.len as usize
    }
}

/// The bytes of a span. None where they do not lie within the memory.
pub fn span_bytes(memory: &[u8], span: Span) -> Option<&[u8]>
    ensures { option_map (λ b. b.now) result ≡ span_bytes span.pointer span.len memory.now }
{
    memory.get(span.pointer as usize..span.end())
}

/// How far the bytes reach that a call is given.
pub fn reach(which: HostCall, args: &[u32]) -> usize
    requires { length args.now ≡ arity which }
    ensures { result ≡ reach which args.now }
{
    let first = Span::at(args, 0).end();
    match which {
        HostCall::GetState | HostCall::PutState => first.max(Span::at(args, 2).end()),
        HostCall::RangeState => first
            .max(Span::at(args, 2).end())
            .max(Span::at(args, 5).end()),
        HostCall::DelState | HostCall::GetArg | HostCall::SetResult => first,
    }
}

/// Answers the length of a reply, which is written only if it fits its room whole.
pub fn reply(bytes: &[u8], room: Span, memory: &mut [u8]) -> HostAnswer
    requires room { room.pointer + room.len ≤ length memory.old }
    requires small { length bytes.now < 2 ^ 32 }
    ensures { (s : Recorded) →
        replies bytes.now room.pointer room.len memory.old s
        ≡ record { answer = result; memory = memory.new; records = s } }
{
    if bytes.len() <= room.len as usize {
        write_bytes(memory, room.pointer as usize, bytes);
    }
    HostAnswer::Value(bytes.len() as u32)
}

/// Writes bytes from a place on.
pub fn write_bytes(memory: &mut [u8], at: usize, bytes: &[u8])
    requires { at + length bytes.now ≤ length memory.old }
    ensures { memory.new ≡ with_bytes memory.old at bytes.now }
{
    memory[at..at + bytes.len()].copy_from_slice(bytes);
}
