//! The functions of the module `fabric`, which chaincode imports.

ghost use Rattle.std.specs.Prelude.{◌≡◌};
ghost use Rattle.wasm_ast.specs.HostTypes.{arity};

/// A call of the host.
#[derive(Clone, Copy, Debug, PartialEq, Eq)]
pub enum HostCall {
    GetState,
    PutState,
    DelState,
    RangeState,
    GetArg,
    SetResult,
}

/// What the host answers: a word, or that an access went past the end of the memory.
#[derive(Clone, Copy, Debug, PartialEq, Eq)]
pub enum HostAnswer {
    Value(u32),
    OutOfBounds,
}

/// How many parameters a host call has: 2 to 7.
#[inline(always)]
pub fn arity(call: HostCall) -> usize
    ensures { result ≡ arity call }
{
    match call {
        HostCall::GetState | HostCall::PutState => 4,
        HostCall::RangeState => 7,
        HostCall::DelState | HostCall::GetArg | HostCall::SetResult => 2,
    }
}
