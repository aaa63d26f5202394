//! The names and the types of the host calls.

ghost use Rattle.std.specs.Prelude.{◌≡◌, IsTrue, ◌↔◌, replicate};
ghost use Rattle.std.specs.List.{All};
ghost use Rattle.wasm_ast.specs.declared.types.ValueType.TheVariants.{I32};
ghost use Rattle.wasm_typing.specs.HostCalls.{call_named, call_type};

use wasm_ast::{FuncType, HostCall, ValueType, arity};

/// The host call of this name, which a module can import from `fabric`. None where there is none.
pub fn call_named(name: &str) -> Option<HostCall>
    ensures { result ≡ call_named name.now }
{
    match name {
        "get_state" => Some(HostCall::GetState),
        "put_state" => Some(HostCall::PutState),
        "del_state" => Some(HostCall::DelState),
        "range_state" => Some(HostCall::RangeState),
        "get_arg" => Some(HostCall::GetArg),
        "set_result" => Some(HostCall::SetResult),
        _ => None,
    }
}

/// Whether a function type is that of a host call, whose parameters and result are all i32.
pub fn is_type_of_call(function_type: &FuncType, call: HostCall) -> bool
    ensures { IsTrue result ↔ (function_type.now ≡ call_type call) }
{
    are_i32(function_type.params.as_slice(), arity(call))
        && function_type.result == Some(ValueType::I32)
}

/// Whether these are so many i32.
fn are_i32(types: &[ValueType], count: usize) -> bool
    ensures { IsTrue result ↔ (types.now ≡ replicate count I32) }
{
    types.len() == count && all_i32(types)
}

/// Whether each of these is i32.
fn all_i32(types: &[ValueType]) -> bool
    ensures { IsTrue result ↔ All (λ t. t ≡ I32) types.now }
{
    types.iter().all(|value_type| *value_type == ValueType::I32)
}
