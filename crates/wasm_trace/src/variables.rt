//! Locals and globals (Core 1.0, section 4.4.3).

ghost use Rattle.std.specs.Prelude.{◌≡◌, slice_get, option_map, IfOk};
ghost use Rattle.wasm_ast.specs.Op as op;
ghost use Rattle.wasm_ast.specs.Types.{same_type};
ghost use Rattle.wasm_trace.specs.View.{val_of, vals, Replaced, OnStack, OnLocals, OnGlobals};

use crate::parts::{Front, Turn, Value};
use interp::Host;
use std::alloc::AllocError;

/// The value of a local or a global, if there is one.
fn read(slots: &[Value], k: u32) -> Option<Value>
    ensures { slice_get (vals slots.now) k ≡ option_map val_of result }
{
    let at = k as usize;
    if at >= slots.len() {
        return None;
    }
    Some(slots[at])
}

/// Whether two values are of one type.
fn are_same(a: Value, b: Value) -> bool
    ensures { result ≡ same_type (val_of a).«type» (val_of b).«type» }
{
    match a {
        Value::I32(_) => match b {
            Value::I32(_) => true,
            Value::I64(_) => false,
        },
        Value::I64(_) => match b {
            Value::I32(_) => false,
            Value::I64(_) => true,
        },
    }
}

/// Moves the last value to a local or a global of the same type. Whether it is there.
fn replace<H: Host>(stack: &mut Vec<Value>, slots: &mut Vec<Value>, k: u32) -> bool
    ensures { Replaced H.Records k stack.old.items slots.old.items result stack.new.items
        slots.new.items }
{
    match stack.pop() {
        None => false,
        Some(value) => match read(slots, k) {
            None => false,
            Some(old) => {
                if !are_same(value, old) {
                    return false;
                }
                let at = k as usize;
                slots[at] = value;
                true
            }
        },
    }
}

/// The value of a local.
pub(crate) fn get_local<H: Host>(
    stack: &mut Vec<Value>,
    locals: &[Value],
    k: u32,
) -> Result<Turn<'static>, AllocError>
    ensures { IfOk result
        (λ t. OnLocals H.Records (op.LocalGet k) stack.old.items locals.now stack.new.items
        locals.now t) }
{
    match read(locals, k) {
        None => Ok(Turn::Stuck),
        Some(value) => {
            stack.push(value)?;
            Ok(Turn::On(Front::Nothing))
        }
    }
}

/// Moves the value on top to a local.
pub(crate) fn set_local<H: Host>(
    stack: &mut Vec<Value>,
    locals: &mut Vec<Value>,
    k: u32,
) -> Turn<'static>
    ensures { OnLocals H.Records (op.LocalSet k) stack.old.items locals.old.items stack.new.items
        locals.new.items result }
{
    if replace::<H>(stack, locals, k) {
        return Turn::On(Front::Nothing);
    }
    Turn::Stuck
}

/// The value of a global.
pub(crate) fn get_global<H: Host>(
    stack: &mut Vec<Value>,
    globals: &[Value],
    k: u32,
) -> Result<Turn<'static>, AllocError>
    ensures { IfOk result
        (λ t. OnGlobals H.Records (op.GlobalGet k) stack.old.items globals.now stack.new.items
        globals.now t) }
{
    match read(globals, k) {
        None => Ok(Turn::Stuck),
        Some(value) => {
            stack.push(value)?;
            Ok(Turn::On(Front::Nothing))
        }
    }
}

/// Moves the value on top to a global.
pub(crate) fn set_global<H: Host>(
    stack: &mut Vec<Value>,
    globals: &mut Vec<Value>,
    k: u32,
) -> Turn<'static>
    ensures { OnGlobals H.Records (op.GlobalSet k) stack.old.items globals.old.items stack.new.items
        globals.new.items result }
{
    if replace::<H>(stack, globals, k) {
        return Turn::On(Front::Nothing);
    }
    Turn::Stuck
}

/// Copies the value on top, for the `local.set` that this becomes.
pub(crate) fn tee_local<H: Host>(
    stack: &mut Vec<Value>,
    k: u32,
) -> Result<Turn<'static>, AllocError>
    ensures { IfOk result
        (λ t. OnStack H.Records (op.LocalTee k) stack.old.items stack.new.items t) }
{
    match stack.pop() {
        None => Ok(Turn::Stuck),
        Some(value) => {
            stack.push(value)?;
            stack.push(value)?;
            Ok(Turn::On(Front::Set(k)))
        }
    }
}
