//! How a configuration begins (Core 1.0, section 4.5.5).

ghost use Rattle.std.specs.Prelude.{◌≡◌, map, IfOk};
ghost use Rattle.wasm_typing.specs.ModuleRules.{IsValid, IsValidGlobal};
ghost use Rattle.wasm_meaning.specs.Program.{fresh_global};
ghost use Rattle.wasm_trace.specs.View.{val_of, vals, Starts};

use super::Configuration;
use super::calls::own_function;
use crate::parts::{Front, Value};
use std::alloc::{AllocError, Global as Allocation};
use wasm_ast::{Global, Instr, Module};
use wasm_instance::Instance;
use wasm_validate::ValidModule;

impl<'m> Configuration<'m> {
    /// The call of `invoke` on a fresh instance, without a frame.
    pub(crate) fn start(
        alloc: Allocation,
        valid: &'m ValidModule,
        fuel: u64,
    ) -> Result<Configuration<'m>, AllocError>
        ensures { IfOk result (λ c. Starts valid.now fuel c) }
    {
        let module = valid.module();
        let at = (valid.invoke() as usize).saturating_sub(valid.host_calls().len());
        match own_function(valid, at) {
            None => unreachable!(),
            Some((function_type, function)) => Ok(Configuration {
                alloc,
                fuel,
                levels: Vec::new(alloc),
                locals: Vec::new(alloc),
                stack: Vec::new(alloc),
                front: Front::Invoke(function_type, function),
                code: &[],
                globals: fresh_globals(alloc, module)?,
                instance: Instance::new(alloc, module)?,
            }),
        }
    }
}

/// What the globals of a module start as.
fn fresh_globals(alloc: Allocation, module: &Module) -> Result<Vec<Value>, AllocError>
    requires { IsValid «module».now }
    ensures { IfOk result (λ values. vals values.items ≡ map fresh_global «module».now.globals) }
{
    let globals = module.globals.as_slice();
    let mut values = Vec::new(alloc);
    for global in globals {
        values.push(fresh_global(global))?;
    }
    Ok(values)
}

fn fresh_global(global: &Global) -> Value
    requires { IsValidGlobal global.now }
    ensures { val_of result ≡ fresh_global global.now }
{
    match global.initializer.items().first() {
        Some(Instr::I32Const(word)) => Value::I32(*word),
        Some(Instr::I64Const(word)) => Value::I64(*word),
        _ => unreachable!(),
    }
}
