//! Records whose blocks are still to be judged.

ghost use Rattle.std.specs.Prelude.{◌≡◌, true, [], ◌∷◌, IfOk, IfSome, MatchOption};
ghost use Rattle.std.specs.FinMap.{get};
ghost use Rattle.fab_types.specs.Memberships.{membership_key};
ghost use Rattle.endorsement_policy.specs.Judge.{plain_in};
ghost use Rattle.store_replay.specs.Tags.{AreRightTags, IsKnown, orgs_kept, right_in_record};

use crate::tags::TagChecks;
use crate::watch::Watch;
use endorsement_policy::{Rules, value_of_membership};
use fab_types::{CommittedBlock, Value};
use policy_language::OrgSet;
use std::alloc::{AllocError, Global};
use std::collections::VecDeque;
use std::thread::Threads;
use world_state::{Past, StateMap};

/// Records whose blocks are still to be judged, and what is known of the first of them: which of
/// the organisations that stand have right tags in them. Who stands is by the value at the key of
/// the membership, which is kept beside it: behind a block that amends the membership, what is
/// known is thrown away.
#[derive(Drop)]
pub struct Pending {
    records: VecDeque<CommittedBlock>,
    right: VecDeque<Vec<OrgSet>>,
    value: Option<Value>,
}

/// The value that the key of the membership has in a state. The error is of memory.
fn standing_value(state: &StateMap) -> Result<Option<Value>, AllocError>
    ensures { IfOk result (λ v. v ≡ get (plain_in state.now.entries) membership_key) }
{
    match value_of_membership(state) {
        Some(value) => Ok(Some(value.clone()?)),
        None => Ok(None),
    }
}

impl Pending {
    /// These records. Nothing is known of them.
    pub fn new(alloc: Global, records: Vec<CommittedBlock>) -> Pending
        ensures records { result.records.items ≡ records.items }
        ensures known { result.right.items ≡ [] }
    {
        Pending {
            records: VecDeque::from_vec(records),
            right: VecDeque::new(alloc),
            value: None,
        }
    }

    /// Takes the next record, which is to be put behind a chain, and what is known of it. Where
    /// nothing is known of what is left for who stands there, tags are looked at first.
    pub fn next<T: Threads + Sync, V: Watch, P: Past>(
        &mut self,
        tags: &TagChecks<'_, T, V>,
        alloc: Global,
        rules: &Rules,
        past: &P,
    ) -> Option<(CommittedBlock, Option<Vec<OrgSet>>)>
        requires known { IsKnown rules.now self.old }
        ensures known { IsKnown rules.now self.new }
        ensures next { MatchOption result (self.old.records.items ≡ [])
            (λ p. self.old.records.items ≡ p.0 ∷ self.new.records.items) }
        ensures right { IfSome result
            (λ p. IfSome p.1
            (λ v. v.items ≡ right_in_record (orgs_kept rules.now (P.kept past.now)) p.0)) }
    {
        self.look_ahead(tags, alloc, rules, past);
        let stored = self.records.pop_front()?;
        Some((stored, self.right.pop_front()))
    }

    /// Looks at the tags of the first records, where nothing is known of them for who stands behind
    /// the chain.
    fn look_ahead<T: Threads + Sync, V: Watch, P: Past>(
        &mut self,
        tags: &TagChecks<'_, T, V>,
        alloc: Global,
        rules: &Rules,
        past: &P,
    )
        requires known { IsKnown rules.now self.old }
        ensures known { IsKnown rules.now self.new }
        // It is known for who stands behind the chain.
        ensures here { AreRightTags (orgs_kept rules.now (P.kept past.now)) self.new.right.items
            self.new.records.items }
        ensures records { self.new.records.items ≡ self.old.records.items }
    {
        if self.is_known_in(past.map()) {
            return;
        }
        let Ok(value) = standing_value(past.map()) else {
            self.right = VecDeque::new(alloc);
            return;
        };
        let (front, _) = self.records.as_slices();
        let right = tags.right_tags(alloc, rules, past, front);
        self.right = VecDeque::from_vec(right);
        self.value = value;
    }

    /// Whether something is known for who stands in a state.
    fn is_known_in(&self, state: &StateMap) -> bool
        ensures { result ≡ true →
            self.now.value ≡ get (plain_in state.now.entries) membership_key }
    {
        !self.right.is_empty() && self.has_value_of(state)
    }

    /// Whether the key of the membership has in a state the value that is kept.
    fn has_value_of(&self, state: &StateMap) -> bool
        ensures { result ≡ true →
            self.now.value ≡ get (plain_in state.now.entries) membership_key }
    {
        match (&self.value, value_of_membership(state)) {
            (None, None) => true,
            (Some(kept), Some(value)) => kept.as_slice() == value.as_slice(),
            _ => false,
        }
    }
}
