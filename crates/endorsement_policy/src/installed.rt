//! What every peer has installed, and which definitions can be used with it.

ghost use Rattle.std.specs.Prelude.{◌≡◌, ◌&&◌, IfOk};
ghost use Rattle.std.specs.Result.{is_ok};
ghost use Rattle.endorsement_policy.specs.Installed.{id_of, names_for, names_known, org_names, place_for, place_of, usable_by, usable_in};
ghost use Rattle.policy_language.specs.Reading.{policy_in_text};

use crate::fault::DefinitionFault;
use crate::organisations::names_of;
use fab_types::{Definition, Fuel, OrgName};
use org_keys::Organisation;
use policy_language::{Policy, names_in_text, policy_in_text};
use std::alloc::{AllocError, Global};
use std::marker::Model;
use wasm_profile::Profile;
use wire::{WireFault, decode_definition};

/// What a module is known by.
#[derive(Clone, Copy, PartialEq, Eq, Debug)]
pub struct ModuleId {
    /// The SHA-256 of the module's bytes.
    pub digest: [u8; 32],
    /// By which profile the bytes are read.
    pub profile: Profile,
}

impl ModuleId {
    /// What the module of a definition is known by.
    pub fn of(definition: &Definition) -> ModuleId
        ensures { result ≡ id_of definition.now }
    {
        ModuleId {
            digest: definition.digest,
            profile: definition.profile,
        }
    }
}

/// Which module a definition means.
#[derive(Clone, Copy, PartialEq, Eq, Debug, Drop)]
pub enum ModulePlace {
    /// The one at this place among those that are installed.
    Installed(usize),
    /// Whichever is at hand under this id.
    Named(ModuleId),
}

/// The ids of the modules, and the organisations of the genesis, whose names a policy may have and
/// whose keys their members may keep.
#[derive(Drop)]
pub struct Installed {
    modules: Vec<ModuleId>,
    organisations: Vec<Organisation>,
    /// Their names.
    names: Vec<OrgName>,
}

impl Model for Installed {
    ghost use Rattle.std.specs.Prelude.{◌≡◌};
    ghost use Rattle.endorsement_policy.specs.Installed.{Installed, org_names};

    ghost Value = { Installed };

    ghost view = { λ i. record { modules = i.modules.items; orgs = i.organisations.items } };

    ghost invariant = { λ i. i.names.items ≡ org_names i.organisations.items };
}

/// How a definition is used.
#[derive(Drop)]
pub struct Usable {
    /// Which module it means.
    pub place: ModulePlace,
    /// What a call may spend.
    pub fuel: Fuel,
    /// Whose endorsements a call needs.
    pub policy: Policy,
}

impl Installed {
    /// The only error is want of memory.
    pub fn new(
        alloc: Global,
        modules: Vec<ModuleId>,
        organisations: Vec<Organisation>,
    ) -> Result<Installed, AllocError>
        ensures { IfOk result
            (λ i. i ≡ record { modules = modules.items; orgs = organisations.items }) }
    {
        let names = names_of(alloc, &organisations)?;
        Ok(Installed {
            modules,
            organisations,
            names,
        })
    }

    /// The id of each module.
    pub fn modules(&self) -> &[ModuleId]
        ensures { result.now ≡ self.now.modules }
    {
        &self.modules
    }

    /// The organisations of the genesis.
    pub fn organisations(&self) -> &[Organisation]
        ensures { result.now ≡ self.now.orgs }
    {
        &self.organisations
    }

    /// Their names, those that a policy may have.
    pub fn names(&self) -> &[OrgName]
        ensures { result.now ≡ org_names self.now.orgs }
    {
        &self.names
    }

    /// Where the first installed module of this id stands.
    pub fn place(&self, id: &ModuleId) -> Option<usize>
        ensures { result ≡ place_of self.now.modules id.now.digest id.now.profile }
    {
        self.modules.iter().position(|m| m == id)
    }

    /// How a definition is used, or why it cannot be. The only error is want of memory.
    pub fn usable(
        &self,
        alloc: Global,
        definition: &Definition,
    ) -> Result<Result<Usable, DefinitionFault>, AllocError>
        ensures { IfOk result (λ r. r ≡ usable_by self.now definition.now) }
    {
        let Some(place) = self.place_for(definition) else {
            return Ok(Err(DefinitionFault::NotInstalled));
        };
        let Some(policy) = self.policy_for(alloc, definition)? else {
            return Ok(Err(DefinitionFault::BadPolicy));
        };
        Ok(Ok(Usable {
            place,
            fuel: definition.fuel,
            policy,
        }))
    }

    /// Which module a definition means. None where it is closed and none is installed.
    fn place_for(&self, definition: &Definition) -> Option<ModulePlace>
        ensures { result ≡ place_for self.now definition.now }
    {
        let id = ModuleId::of(definition);
        if definition.is_open {
            return Some(ModulePlace::Named(id));
        }
        self.place(&id).map(ModulePlace::Installed)
    }

    /// The policy that a definition's text is, whomever it names if the definition is open. The
    /// only error is want of memory.
    fn policy_for(
        &self,
        alloc: Global,
        definition: &Definition,
    ) -> Result<Option<Policy>, AllocError>
        ensures { IfOk result (λ p. p ≡ policy_in_text (names_for self.now definition.now)
            definition.now.policy) }
    {
        let text = definition.policy.as_slice();
        if definition.is_open {
            let names = names_in_text(alloc, text)?;
            return policy_in_text(alloc, text, &names);
        }
        policy_in_text(alloc, text, self.names())
    }

    /// Whether an upgrade may put a definition: it can be used, and its policy is of organisations
    /// of these names, if it is open. The only error is want of memory.
    pub(crate) fn may_be_put(
        &self,
        alloc: Global,
        names: &[OrgName],
        definition: &Definition,
    ) -> Result<bool, AllocError>
        ensures { IfOk result (λ b. b ≡ (is_ok (usable_by self.now definition.now)
            && names_known names.now definition.now)) }
    {
        Ok(self.usable(alloc, definition)?.is_ok() && are_names_known(alloc, names, definition)?)
    }

    /// How the definition that these bytes spell is used. None where they spell none, or one that
    /// cannot be used. The only error is want of memory.
    pub fn definition(&self, alloc: Global, bytes: &[u8]) -> Result<Option<Usable>, AllocError>
        ensures { IfOk result (λ u. u ≡ usable_in self.now bytes.now) }
    {
        let definition = match decode_definition(alloc, bytes) {
            Ok(definition) => definition,
            Err(WireFault::Memory) => return Err(AllocError),
            Err(_) => return Ok(None),
        };
        Ok(self.usable(alloc, &definition)?.ok())
    }
}

impl Clone for Installed {
    ghost use Rattle.std.specs.Prelude.{◌≡◌};

    ghost is_clone = { λ a b. b ≡ a };

    fn clone(&self) -> Result<Installed, AllocError> {
        Ok(Installed {
            modules: self.modules.clone()?,
            organisations: self.organisations.clone()?,
            names: self.names.clone()?,
        })
    }
}

/// Whether the policy of a definition is of organisations of these names, if it is open. The only
/// error is want of memory.
fn are_names_known(
    alloc: Global,
    names: &[OrgName],
    definition: &Definition,
) -> Result<bool, AllocError>
    ensures { IfOk result (λ b. b ≡ names_known names.now definition.now) }
{
    if !definition.is_open {
        return Ok(true);
    }
    let text = definition.policy.as_slice();
    Ok(policy_in_text(alloc, text, names)?.is_some())
}
