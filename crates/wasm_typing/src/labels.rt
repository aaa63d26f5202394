//! The labels round an instruction.

ghost use Rattle.std.specs.Prelude.{◌≡◌, ◌∷◌, [], List, Option, Some, IfOk, IfErr, IsTrue, false};
ghost use Rattle.wasm_ast.specs.Code.{BlockType};
ghost use Rattle.wasm_typing.specs.Algorithm.{each_label};
ghost use Rattle.wasm_typing.specs.Breaks.{AnyMissing};
ghost use Rattle.wasm_typing.specs.Typing.{at};

use crate::fault::ValidateFault;
use std::alloc::Global;
use std::marker::Model;
use wasm_ast::BlockType;

/// What a branch to each label carries. Contracts see the innermost label first.
#[derive(Drop)]
pub struct Labels {
    // The innermost label is last.
    carried: Vec<BlockType>,
}

impl Model for Labels {
    ghost use Rattle.std.specs.Prelude.{reverse, List};
    ghost use Rattle.wasm_ast.specs.Code.{BlockType};

    ghost Value = { List BlockType };

    ghost view = { λ a. reverse a.carried.items };
}

impl Labels {
    /// No label.
    pub fn new(alloc: Global) -> Labels
        ensures { result ≡ [] }
    {
        Labels {
            carried: Vec::new(alloc),
        }
    }

    /// Goes into a block to whose label a branch carries this.
    pub fn enter(&mut self, carried: BlockType) -> Result<(), ValidateFault>
        ensures ok { IfOk result (λ _. self.new ≡ carried ∷ self.old) }
        ensures refused { IfErr result (λ e. e ≡ ValidateFault.Memory) }
    {
        self.carried.push(carried)?;
        Ok(())
    }

    /// Goes out of the innermost block.
    pub fn exit(&mut self)
        ensures { (l : BlockType) → (rest : List BlockType) → self.old ≡ l ∷ rest →
            self.new ≡ rest }
    {
        let _ = self.carried.pop();
    }

    /// What a branch to a label carries; 0 is the innermost.
    pub fn get(&self, label: u32) -> Option<BlockType>
        ensures { result ≡ at self.now label }
    {
        let label = label as usize;
        if label < self.carried.len() {
            Some(self.carried[self.carried.len() - 1 - label])
        } else {
            None
        }
    }

    /// Whether each of these is a label.
    pub fn have_all(&self, labels: &[u32]) -> bool
        ensures missing { result ≡ false → AnyMissing self.now labels.now }
        ensures all { IsTrue result → ¬ AnyMissing self.now labels.now }
    {
        for label in labels {
            if self.get(*label).is_none() {
                return false;
            }
        }
        true
    }

    /// Whether each of these is a label to which a branch carries this.
    pub fn all_carry(&self, labels: &[u32], carried: BlockType) -> bool
        ensures { result ≡ each_label self.now labels.now carried }
    {
        for label in labels {
            match self.get(*label) {
                None => return false,
                Some(other) => {
                    if other != carried {
                        return false;
                    }
                }
            }
        }
        true
    }
}
