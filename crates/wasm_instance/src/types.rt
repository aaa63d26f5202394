//! The test of function types, by which an indirect call is done (Core 1.0, section 4.4.5).

ghost use Rattle.std.specs.Prelude.{◌≡◌, ◌↔◌, IsTrue};
ghost use Rattle.wasm_meaning.specs.Meaning.{same_func_type};

use wasm_ast::FuncType;

/// Whether two function types have the same parameters and results.
pub fn same_func_type(a: &FuncType, b: &FuncType) -> bool
    ensures value { result ≡ same_func_type a.now b.now }
    ensures equal { IsTrue result ↔ (a.now ≡ b.now) }
{
    a.result == b.result && a.params.as_slice() == b.params.as_slice()
}
