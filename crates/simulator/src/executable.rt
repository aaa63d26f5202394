//! What calls execute.

ghost use Rattle.std.specs.Prelude.{◌≡◌, IfOk, option_map};
ghost use Rattle.simulator.specs.Execution.{executable_at, executable_by, found_as, genesis_executable, spelled_executable};

use chaincode_book::Book;
use endorsement_policy::ModulePlace;
use fab_types::{Fuel, Name, Value};
use std::alloc::{AllocError, Global};
use wasm_validate::ValidModule;

/// What a call executes, and what it may spend.
#[derive(Clone, Copy)]
pub(crate) struct Executable<'b> {
    pub module: &'b ValidModule,
    pub fuel: u64,
}

/// What a definition that can be used comes to in a book.
#[derive(Clone, Copy)]
pub(crate) enum Found<'b> {
    /// A module that is not at hand.
    NotAtHand,
    AtHand(Executable<'b>),
}

/// What a call of the chaincode executes by a book, where the key of its definition has this value.
pub(crate) fn find_executable<'b>(
    alloc: Global,
    book: &'b Book,
    name: &Name,
    value: Option<&Value>,
) -> Result<Option<Found<'b>>, AllocError>
    ensures { IfOk result
        (λ e. option_map found_as e
        ≡ executable_by book.now name.now (option_map (λ v. v.now) value.entry)) }
{
    match value {
        None => Ok(by_genesis(book, name)),
        Some(value) => by_spelling(alloc, book, value),
    }
}

/// By the genesis.
fn by_genesis<'b>(book: &'b Book, name: &Name) -> Option<Found<'b>>
    ensures { option_map found_as result ≡ genesis_executable book.now name.now }
{
    let chaincode = book.get(name)?;
    Some(Found::AtHand(Executable {
        module: &chaincode.module,
        fuel: chaincode.fuel,
    }))
}

/// By the bytes of a definition.
fn by_spelling<'b>(
    alloc: Global,
    book: &'b Book,
    bytes: &Value,
) -> Result<Option<Found<'b>>, AllocError>
    ensures { IfOk result (λ e. option_map found_as e ≡ spelled_executable book.now bytes.now) }
{
    match book.installed().definition(alloc, bytes.as_slice())? {
        Some(usable) => Ok(by_place(book, usable.place, usable.fuel)),
        None => Ok(None),
    }
}

/// By the place of a module. One that is installed is at hand; any other is looked for.
fn by_place<'b>(book: &'b Book, place: ModulePlace, fuel: Fuel) -> Option<Found<'b>>
    ensures { option_map found_as result ≡ executable_at book.now place fuel }
{
    let fuel = u64::from(fuel.get());
    let module = match place {
        ModulePlace::Installed(place) => book.module_at(place)?,
        ModulePlace::Named(id) => match book.at_hand(&id) {
            Some(module) => module,
            None => return Some(Found::NotAtHand),
        },
    };
    Some(Found::AtHand(Executable { module, fuel }))
}
