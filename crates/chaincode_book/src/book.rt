//! The chaincodes that can be called, and the modules that are installed.

ghost use Rattle.std.specs.Prelude.{◌≡◌, ◌↔◌, IsSome, IfSome, true, option_map, slice_get};
ghost use Rattle.std.specs.List.{list_all, list_any, AllByRecursion};
ghost use Rattle.wasm_typing.specs.ModuleRules.{IsValid};
ghost use Rattle.endorsement_policy.specs.Installed.{is_id};
ghost use Rattle.chaincode_book.specs.Books.{IsBook, AreValid, chaincode_at, is_named, has_fuel, have_own_names, held_of, installed_module, module_at_hand, modules_of};

use endorsement_policy::{Installed, ModuleId};
use fab_types::limits::{MOST_CHAINCODES, MOST_FUEL, MOST_HELD, MOST_MODULES};
use fab_types::{Edition, Name};
use std::marker::Model;
use wasm_validate::ValidModule;

/// A chaincode as the genesis defines it.
#[derive(Drop)]
pub struct Chaincode {
    pub name: Name,
    pub module: ValidModule,
    /// What a call may spend, 1 to 10,000,000 in a book.
    pub fuel: u64,
}

/// A module that a process has at hand beside those that the genesis installs.
#[derive(Drop)]
pub struct Held {
    pub id: ModuleId,
    pub module: ValidModule,
}

/// The edition of the rules by which chaincode is executed, up to 16 chaincodes of different names,
/// each with a fuel of 1 to 10,000,000, and up to 16 modules more. All these modules are installed,
/// those of the chaincodes first. Up to 64 modules may be at hand beside them.
#[derive(Drop)]
pub struct Book {
    edition: Edition,
    chaincodes: Vec<Chaincode>,
    modules: Vec<ValidModule>,
    installed: Installed,
    held: Vec<Held>,
}

impl Model for Book {
    ghost use Rattle.std.specs.Coded.{codes};
    ghost use Rattle.chaincode_book.specs.contracts.book.Chaincode as chaincode;
    ghost use Rattle.chaincode_book.specs.contracts.book.Held as held_row;
    ghost use Rattle.wasm_ast.specs.contracts.module.Module as wasm;
    ghost use Rattle.chaincode_book.specs.Books.{Book, IsBook, AreValid};

    ghost Value = { Book };

    ghost coded = { Prim.hlevel (
      codes,
      chaincode.the_row.coded,
      held_row.the_row.coded,
      wasm.the_row.coded,
    ) };

    ghost view = { λ b.
        record {
          edition = b.edition;
          chaincodes = b.chaincodes.items;
          modules = b.modules.items;
          installed = b.installed;
          held = b.held.items;
        } };

    ghost invariant = { λ b.
        let book : Book =
        record {
          edition = b.edition;
          chaincodes = b.chaincodes.items;
          modules = b.modules.items;
          installed = b.installed;
          held = b.held.items;
        } in
        IsBook book × AreValid book };
}

impl Book {
    /// The book of these chaincodes and modules, and of those that are at hand beside them. None if
    /// there are more than 16 of either or more than 64 at hand, if two chaincodes have the same
    /// name, if a fuel is out of its range or if there is not one id for each installed module.
    pub fn new(
        edition: Edition,
        chaincodes: Vec<Chaincode>,
        modules: Vec<ValidModule>,
        installed: Installed,
        held: Vec<Held>,
    ) -> Option<Book>
        ensures accepted { IsSome result
            ↔ IsBook
            (record {
              edition = edition;
              chaincodes = chaincodes.items;
              modules = modules.items;
              installed = installed;
              held = held.items;
            }) }
        ensures value { IfSome result
            (λ b. b
            ≡ record {
              edition = edition;
              chaincodes = chaincodes.items;
              modules = modules.items;
              installed = installed;
              held = held.items;
            }) }
    {
        show_valid(&modules);
        show_held_valid(&held);
        if chaincodes.len() > MOST_CHAINCODES
            || !have_fuel(&chaincodes)
            || !have_own_names(&chaincodes)
            || modules.len() > MOST_MODULES
            || held.len() > MOST_HELD
            || installed.modules().len() != chaincodes.len() + modules.len()
        {
            return None;
        }
        Some(Book {
            edition,
            chaincodes,
            modules,
            installed,
            held,
        })
    }

    /// The edition by which chaincode is executed.
    pub fn edition(&self) -> Edition
        ensures { result ≡ self.now.edition }
    {
        self.edition
    }

    /// The chaincodes, in the order in which they were given. The module of each is valid.
    pub fn chaincodes(&self) -> &[Chaincode]
        ensures value { result.now ≡ self.now.chaincodes }
        ensures limits { IsBook self.now }
        ensures valid { AreValid self.now }
    {
        &self.chaincodes
    }

    /// The modules that are installed besides those of the chaincodes.
    pub fn modules(&self) -> &[ValidModule]
        ensures { result.now ≡ self.now.modules }
    {
        &self.modules
    }

    /// What a definition can be used with: the ids of the chaincodes' modules first, then those of
    /// the modules.
    pub fn installed(&self) -> &Installed
        ensures { result.now ≡ self.now.installed }
    {
        &self.installed
    }

    /// The chaincode of a name.
    pub fn get(&self, name: &Name) -> Option<&Chaincode>
        ensures { option_map (λ c. c.now) result ≡ chaincode_at self.now.chaincodes name.now }
    {
        self.chaincodes.iter().find(|c| c.is_named(name))
    }

    /// The installed module at a place, where those of the chaincodes come first.
    pub fn module_at(&self, place: usize) -> Option<&ValidModule>
        ensures { option_map (λ m. m.now) result ≡ slice_get (modules_of self.now) place }
    {
        match self.chaincodes.get(place) {
            Some(chaincode) => Some(&chaincode.module),
            None => self.modules.get(place - self.chaincodes.len()),
        }
    }

    /// The first module at hand of an id, those that are installed before the others.
    pub fn at_hand(&self, id: &ModuleId) -> Option<&ValidModule>
        ensures { option_map (λ m. m.now) result ≡ module_at_hand self.now id.now }
    {
        if let Some(module) = self.installed_module(id) {
            return Some(module);
        }
        let held = self.held_of(id)?;
        Some(&held.module)
    }

    /// The first of an id among those that are at hand beside the installed ones.
    fn held_of(&self, id: &ModuleId) -> Option<&Held>
        ensures { option_map (λ h. h.now) result ≡ held_of self.now.held id.now }
    {
        self.held.iter().find(|h| h.is_of(id))
    }

    /// The first installed module of an id.
    fn installed_module(&self, id: &ModuleId) -> Option<&ValidModule>
        ensures { option_map (λ m. m.now) result ≡ installed_module self.now id.now }
    {
        let place = self.installed.place(id)?;
        self.module_at(place)
    }
}

impl Held {
    /// Whether the module has this id.
    fn is_of(&self, id: &ModuleId) -> bool
        ensures { result ≡ is_id id.now self.now.id }
    {
        self.id == *id
    }
}

impl Chaincode {
    /// Whether it has this name.
    fn is_named(&self, name: &Name) -> bool
        ensures { result ≡ is_named name.now self.now }
    {
        self.name.as_slice() == name.as_slice()
    }
}

/// Whether each fuel is in its range.
fn have_fuel(chaincodes: &[Chaincode]) -> bool
    ensures { result ≡ list_all has_fuel chaincodes.now }
{
    chaincodes.iter().all(|c| (1..=MOST_FUEL).contains(&c.fuel))
}

/// Whether one of the chaincodes has this name.
fn has_name(chaincodes: &[Chaincode], name: &Name) -> bool
    ensures { result ≡ list_any (is_named name.now) chaincodes.now }
{
    chaincodes.iter().any(|c| c.is_named(name))
}

/// Whether no two have the same name. Each module is valid, as the getter of its type tells.
fn have_own_names(chaincodes: &[Chaincode]) -> bool
    ensures names { result ≡ have_own_names chaincodes.now }
    ensures valid { result ≡ true → AllByRecursion (λ c. IsValid c.module) chaincodes.now }
{
    match chaincodes {
        [] => true,
        [first, rest @ ..] => {
            let _valid = first.module.module();
            !has_name(rest, &first.name) && have_own_names(rest)
        }
    }
}

/// Each module is valid, as the getter of its type tells.
fn show_valid(modules: &[ValidModule])
    ensures { AllByRecursion IsValid modules.now }
{
    if let [first, rest @ ..] = modules {
        let _valid = first.module();
        show_valid(rest);
    }
}

/// The same of modules that are at hand.
fn show_held_valid(held: &[Held])
    ensures { AllByRecursion (λ h. IsValid h.module) held.now }
{
    if let [first, rest @ ..] = held {
        let _valid = first.module.module();
        show_held_valid(rest);
    }
}
