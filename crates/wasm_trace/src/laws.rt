//! Laws of the reduction. Nothing here runs.

ghost use Rattle.std.specs.Prelude.{◌≡◌, ℕ, List};
ghost use Rattle.wasm_ast.specs.declared.module.Module.{Module};
ghost use Rattle.wasm_ast.specs.Code.{Code};
ghost use Rattle.wasm_typing.specs.ModuleRules.{IsValid};
ghost use Rattle.wasm_meaning.specs.Values.{Val, World, Answering, Program};
ghost use Rattle.wasm_meaning.specs.Meaning.{meaning};
ghost use Rattle.wasm_meaning.specs.Program.{program_of, invocation};
ghost use Rattle.interp.specs.declared.outcome.Outcome.{Outcome};
ghost use Rattle.interp.specs.Ended.{Ended};
ghost use Rattle.wasm_trace.specs.Reduction.{Seq, Config, conf, values, plain, reduce, Reaches};
ghost use Rattle.wasm_trace.specs.Context.{Layer, frames, Shows};
ghost use Rattle.wasm_trace.specs.Ending.{IsStart, EndsAs, IsStuck, ReductionEnds};

/// The meaning of code, within any labels and frames, is some number of reductions: past its end,
/// to a branch or a return out of it, to its trap, or to where the fuel is less than the next cost.
pub fn within_labels_and_frames<R>()
    ensures { (p : Program R) (layers : List Layer) (code : Code) (fuel : ℕ)
        (stack locals : List Val) (world : World R) (after : Seq) →
        Shows p layers (conf fuel locals world (values stack (plain code after))) after
        (meaning p (frames layers) code fuel stack locals world) }
{}

/// With every host and every fuel, the reduction of a valid module's `invoke` ends as the meaning
/// says: at the same word or trap, with the same fuel left and the same records.
pub fn ends_as_meant<R>()
    ensures { (m : Module) (host : Answering R) (records : R) (fuel : ℕ) → IsValid m →
        (x : Config R) × IsStart m records fuel x ×
        EndsAs (program_of m host) x (invocation m host records fuel) }
{}

/// A run of a valid module that ended as the contract of `interp::run` says ended as its reduction
/// does.
pub fn ends_as_run<R>()
    ensures { (m : Module) (host : Answering R) (records : R) (fuel : ℕ) (o : Outcome)
        (after : R) → IsValid m → Ended (invocation m host records fuel) fuel o after →
        ReductionEnds m host records fuel o after }
{}

/// A reduction ends in one way.
pub fn ends_once<R>()
    ensures { (m : Module) (host : Answering R) (records : R) (fuel : ℕ) (o p : Outcome)
        (after last : R) →
        ReductionEnds m host records fuel o after → ReductionEnds m host records fuel p last →
        (o ≡ p) × (after ≡ last) }
{}

/// No configuration that the reduction of a valid module's `invoke` reaches is stuck: there is a
/// next one, or it is the end of the run.
pub fn never_stuck<R>()
    ensures { (m : Module) (host : Answering R) (records : R) (fuel : ℕ) (x y : Config R) →
        IsValid m → IsStart m records fuel x → Reaches (program_of m host) x y →
        ¬ IsStuck (reduce (program_of m host) y) }
{}
