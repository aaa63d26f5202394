//! A run of `invoke`, one reduction at a time.

ghost use Rattle.std.specs.Prelude.{◌≡◌, ◌≢◌, ◌≤◌, ◌<◌, None};
ghost use Rattle.wasm_trace.specs.View.{Linked, outcome_of};

use crate::configuration::Configuration;
use crate::names::Mnemonic;
use crate::parts::Flow;
use interp::{Host, Outcome};
use std::alloc::{AllocError, Global};
use wasm_validate::ValidModule;

/// A run of the function that a valid module exports as `invoke`, which goes on by one reduction of
/// the standard at a time (Core 1.0, chapter 4).
///
/// A stepper is to be stepped with one host. After want of memory both are only to be dropped.
#[derive(Drop)]
pub struct Stepper<'m> {
    alloc: Global,
    valid: &'m ValidModule,
    configuration: Configuration<'m>,
    given: u64,
    // How the run ended, once it has.
    ended: Option<Outcome>,
    // What the last step executed, where that cost fuel.
    shown: Option<Mnemonic>,
    ghost linked: { Linked valid.now configuration },
    ghost within: { configuration.fuel ≤ given },
}

impl<'m> Stepper<'m> {
    ghost use Rattle.std.specs.Prelude.{◌++◌, IfOk, option_map, codes, string_bytes};
    ghost use Rattle.std.specs.Fmt.{decimal};
    ghost use Rattle.wasm_meaning.specs.Program.{program_of};
    ghost use Rattle.wasm_trace.specs.Standing.{standing, Begins, IsShownOf, Stepped};

    /// Before the first reduction, on a fresh instance, with this fuel.
    ///
    /// `AllocError` where there is no room for the instance.
    pub fn new(alloc: Global, valid: &'m ValidModule, fuel: u64) -> Result<Stepper<'m>, AllocError>
        ensures { IfOk result (λ s. Begins valid.now fuel (standing s)) }
    {
        Ok(Stepper {
            alloc,
            valid,
            configuration: Configuration::start(alloc, valid, fuel)?,
            given: fuel,
            ended: None,
            shown: None,
        })
    }

    /// One reduction. None while the run goes on, and how it ended once it has, each time again.
    ///
    /// A valid module that is stepped with one host is never stuck: see the law `never_stuck`.
    ///
    /// `AllocError` where there is no room for what the reduction makes.
    pub fn step<H: Host>(&mut self, host: &mut H) -> Result<Option<Outcome>, AllocError>
        ensures goes { IfOk result
            (λ o. Stepped (program_of self.old.valid.now (H.answers host.old)) (standing self.old)
            (H.records host.old) (standing self.new) (H.records host.new) o) }
        ensures ends { IfOk result (λ o. self.new.ended ≡ o) }
        ensures shows { IfOk result
            (λ o. IsShownOf o (standing self.old).at (standing self.new).at.fuel
            (standing self.new).shown) }
        ensures valid { self.new.valid.now ≡ self.old.valid.now }
        ensures given { self.new.given ≡ self.old.given }
        ensures stays { IfOk result (λ _. H.answers host.new ≡ H.answers host.old) }
        ensures keeps { IfOk result (λ _. H.context host.new ≡ H.context host.old) }
    {
        if self.ended.is_some() {
            self.shown = None;
            return Ok(self.ended);
        }
        let (name, before) = (self.configuration.next_name(), self.configuration.fuel);
        let flow = self.configuration.reduce(self.valid, host)?;
        let left = self.configuration.fuel;
        self.ended = outcome_of(flow, self.given - left);
        self.shown = shown(name, self.ended, before, left);
        Ok(self.ended)
    }

    /// What the last step executed and the fuel that it left, as `i32.const fuel=70`. None where it
    /// cost nothing, or where there was none.
    ///
    /// `AllocError` where there is no room for the text.
    pub fn render(&self) -> Result<Option<String>, AllocError>
        ensures { IfOk result
            (λ text. option_map string_bytes text
            ≡ option_map
            (λ name. name ++ (codes " fuel=" ++ decimal self.now.configuration.fuel))
            (standing self.now).shown) }
    {
        match self.shown {
            None => Ok(None),
            Some(name) => {
                let left = self.configuration.fuel;
                Ok(Some(format!(in self.alloc; "{name} fuel={left}")?))
            }
        }
    }
}

/// What is shown of a step: the name, where the run goes on and the step cost fuel.
fn shown(name: Option<Mnemonic>, ended: Option<Outcome>, before: u64, left: u64) -> Option<Mnemonic>
    ensures ends { ended ≢ None → result ≡ None }
    ensures names { ended ≡ None → left < before → result ≡ name }
    ensures free { before ≤ left → result ≡ None }
{
    match ended {
        Some(_) => None,
        None => {
            if left < before {
                return name;
            }
            None
        }
    }
}

/// How a run ended that used this fuel. None while it goes on.
fn outcome_of(flow: Flow, used: u64) -> Option<Outcome>
    ensures { result ≡ outcome_of flow used }
{
    match flow {
        Flow::Continue | Flow::Stuck => None,
        Flow::Returned(status) => Some(Outcome::Returned { status, used }),
        Flow::Trapped(kind) => Some(Outcome::Trapped { kind, used }),
        Flow::Spent => Some(Outcome::Spent),
    }
}
