//! The place of the store that a run writes.

ghost use Rattle.std.specs.Prelude.{◌≡◌, true, IfErr, IfOk, IfSome, OnOk};
ghost use Rattle.cli_lines.specs.Places.{IsFileOf, IsFree};
ghost use Rattle.cli_lines.specs.Told.{IsBrokenOff, IsSilent};
ghost use Rattle.cli_session.specs.Stored.{BeginsNoStore, HasStore};

use crate::replacing::{Replaced, take_file};
use crate::session::RunFiles;
use cli_lines::{Failure, Files, Location, Target, explain_numbered, explain_target, part_of};
use std::alloc::{AllocError, Global};

/// Where a run writes its store.
#[derive(Drop)]
pub(crate) struct Place<L: Drop> {
    pub target: Target,
    /// The file in whose place the store comes, where there is one.
    replaced: Option<Replaced<L>>,
}

impl<L: Drop> Place<L> {
    /// Says that the store of this name was replaced, if a run that ended so has done that.
    pub(crate) fn explain_replaced<F: Files>(
        &self,
        alloc: Global,
        files: &mut F,
        name: &str,
        ran: &Result<bool, Failure>,
    )
        ensures kept { F.bytes files.new ≡ F.bytes files.old }
    {
        if let (Ok(_), Some(replaced)) = (ran, &self.replaced) {
            replaced.explain(alloc, files, name);
        }
    }
}

/// The place of the store of this name.
///
/// Refused where no store can have the name, where its file is one that the run reads, where
/// another one has it, and where it holds bytes with which no store begins.
pub(crate) fn place_of<F: Files>(
    alloc: Global,
    files: &mut F,
    names: &RunFiles<'_>,
    store: &str,
) -> Result<Place<F::Lock>, Failure>
    ensures silent { IfErr result IsSilent }
    ensures lost { IfErr result IsBrokenOff }
    ensures file { F.is_known ≡ true → IfOk result (λ p. IsFileOf store.now p.target) }
    ensures free { F.is_known ≡ true → IfOk result (λ p. IsFree (F.bytes files.old) p.target) }
    ensures store { F.is_known ≡ true
        → OnOk result
        (IfSome (F.bytes files.old store.now) (λ held. ¬ BeginsNoStore held)) }
    ensures kept { F.bytes files.new ≡ F.bytes files.old }
{
    let found = files.target(alloc, store);
    explain_target(alloc, files, store, &found);
    let target = found?;
    if is_read(alloc, files, names, &target)? {
        explain_numbered(alloc, files, &Location::file(store), IS_READ, 703);
        return Err(Failure::File);
    }
    let replaced = replaced_at(alloc, files, &target, store)?;
    Ok(Place { target, replaced })
}

/// What is wrong with a name of a store whose file the run reads.
const IS_READ: &str = "it is a file that the run reads, or stands where one would be written";

/// The file in whose place a store comes, if there is one, taken for the program alone. Sentences
/// call it by the name that is shown.
fn replaced_at<F: Files>(
    alloc: Global,
    files: &mut F,
    target: &Target,
    shown: &str,
) -> Result<Option<Replaced<F::Lock>>, Failure>
    ensures silent { IfErr result IsSilent }
    ensures lost { IfErr result IsBrokenOff }
    ensures store { OnOk result (HasStore (F.bytes files.old) target.now) }
    ensures kept { F.bytes files.new ≡ F.bytes files.old }
{
    match target {
        Target::File(name) => Ok(Some(take_file(alloc, files, name, shown)?)),
        Target::NewFile(_) | Target::Device(_) => Ok(None),
    }
}

/// Whether writing to a place would take away a file that the run reads. A device stays what it is.
fn is_read<F: Files>(
    alloc: Global,
    files: &mut F,
    names: &RunFiles<'_>,
    target: &Target,
) -> Result<bool, AllocError>
    ensures kept { F.bytes files.new ≡ F.bytes files.old }
{
    match target {
        Target::File(name) | Target::NewFile(name) => {
            let part = part_of(alloc, name)?;
            Ok(is_one_of(files, names, name) || is_one_of(files, names, &part))
        }
        Target::Device(_) => Ok(false),
    }
}

/// Whether a file is one that the run reads.
fn is_one_of<F: Files>(files: &mut F, names: &RunFiles<'_>, name: &str) -> bool
    ensures kept { F.bytes files.new ≡ F.bytes files.old }
{
    files.is_same(name, names.genesis)
        || files.is_same(name, names.events)
        || is_given(files, names.modules, name)
        || is_given(files, names.keys, name)
}

/// Whether a file is one that was given by an option.
fn is_given<F: Files>(files: &mut F, given: Option<&str>, name: &str) -> bool
    ensures kept { F.bytes files.new ≡ F.bytes files.old }
{
    match given {
        Some(given) => files.is_same(name, given),
        None => false,
    }
}
