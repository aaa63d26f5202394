//! Policies from texts.

ghost use Rattle.std.specs.Prelude.{◌≡◌, ◌≤◌, ◌<◌, ℕ, List, suc, true, Err, IfErr, IfOk, length};
ghost use Rattle.policy_language.specs.GoodSets.{needs_someone};
ghost use Rattle.policy_language.specs.Faults.{Finds, HasCause};
ghost use Rattle.policy_language.specs.Parsing.{IsAt, MakesBy, ParsesBy, Tells};
ghost use Rattle.policy_language.specs.Limits.{IsText};
ghost use Rattle.policy_language.specs.Reading.{children_at, is_known_by, is_quoted, leaf_at, policy_by, policy_in_text};
ghost use Rattle.policy_language.specs.Spelling.{IsSpelled};
ghost use Rattle.policy_language.specs.Wrong.{Start, More, Says};
ghost use Rattle.policy_language.specs.declared.policy.Policy.{Policy};
ghost use Rattle.grammar.specs.Reading.{whole_at};

use crate::fault::PolicyFault;
use crate::org_set::is_among;
use crate::policy::Policy;
use crate::reader::Reader;
use fab_types::OrgName;
use std::alloc::{AllocError, Global};

/// How many bytes a text has at most.
const MOST_BYTES: usize = 1024;

/// How many operators stand inside one another at most.
const MOST_LEVELS: u32 = 8;

/// More children than a text of so many bytes can spell.
const MOST_CHILDREN: u32 = 1024;

/// The policy that the text spells, where these organisations are known. It needs at least one
/// endorsement.
///
/// A text of more than 1,024 bytes is refused at offset 1,024 before it is read. On another fault
/// than want of memory the text spells no policy within the limits: a shorter one on `Syntax` none
/// at all, and at its offset stands no token that may stand behind those before it; on the others
/// each policy that it spells has the cause that the fault names. The text is read from the left up
/// to the first fault; a threshold is judged once its children are read.
pub fn parse(alloc: Global, text: &str, orgs: &[OrgName]) -> Result<Policy, PolicyFault>
    ensures spelled { IfOk result (λ p. IsText orgs.now p text.now) }
    ensures only { (p : Policy) → IsText orgs.now p text.now → Finds result p }
    ensures long { 1024 < length text.now → result ≡ Err (PolicyFault.Syntax 1024) }
    ensures causes { IfErr result
        (λ e. (p : Policy) → IsSpelled p text.now → length text.now ≤ 1024 →
        HasCause orgs.now e p) }
    ensures place { length text.now ≤ 1024 → IfErr result (λ e. Says e text.now) }
    ensures needed { IfOk result (λ p. needs_someone p ≡ true) }
{
    let bytes = text.as_bytes();
    if bytes.len() > MOST_BYTES {
        return Err(PolicyFault::Syntax(MOST_BYTES));
    }
    whole(alloc, bytes, orgs)
}

/// The policy that these bytes are, where these organisations are known. The only error is want of
/// memory.
pub fn policy_in_text(
    alloc: Global,
    bytes: &[u8],
    orgs: &[OrgName],
) -> Result<Option<Policy>, AllocError>
    ensures { IfOk result (λ p. p ≡ policy_in_text orgs.now bytes.now) }
{
    match whole(alloc, bytes, orgs) {
        Ok(policy) => Ok(Some(policy)),
        Err(PolicyFault::Memory) => Err(AllocError),
        Err(_) => Ok(None),
    }
}

/// The policy that all of the bytes spell.
fn whole(alloc: Global, bytes: &[u8], orgs: &[OrgName]) -> Result<Policy, PolicyFault>
    ensures made { MakesBy result (λ m. whole_at (policy_by orgs.now m 8) bytes.now) }
    ensures place { length bytes.now ≤ 1024 → IfErr result (λ e. Says e bytes.now) }
{
    let mut reader = Reader::new(bytes);
    let policy = policy(alloc, &mut reader, orgs, MOST_LEVELS)?;
    if !reader.is_at_end() {
        return Err(reader.syntax());
    }
    Ok(policy)
}

/// The policy at the front, with at most so many operators inside one another.
#[cycle(policy)]
fn policy(
    alloc: Global,
    reader: &mut Reader<'_>,
    orgs: &[OrgName],
    levels: u32,
) -> Result<Policy, PolicyFault>
    ensures read { ParsesBy (λ p. p) result reader.new.rest
        (λ m. policy_by orgs.now m levels reader.old.rest) }
    ensures place { (text : List ℕ) (n : ℕ) → length reader.old.rest ≤ 1024 →
        IsAt text (Start n) reader.old → Tells text result (λ _. More n) reader.new }
{
    if reader.is_quoted() {
        return leaf(reader, orgs);
    }
    let operator = reader.opening()?;
    if levels == 0 {
        return Err(PolicyFault::TooDeep);
    }
    let children = children(alloc, reader, orgs, levels - 1)?;
    let Some(policy) = operator.over(children) else {
        return Err(PolicyFault::Threshold);
    };
    Ok(policy)
}

/// The children of an operator up to its end.
#[cycle(policy)]
fn children(
    alloc: Global,
    reader: &mut Reader<'_>,
    orgs: &[OrgName],
    levels: u32,
) -> Result<Vec<Policy>, PolicyFault>
    ensures read { ParsesBy (λ v. v.items) result reader.new.rest
        (λ m. children_at (policy_by orgs.now m levels) 1024 reader.old.rest) }
    ensures place { (text : List ℕ) (n : ℕ) → length reader.old.rest < 1024 →
        IsAt text (Start (suc n)) reader.old → Tells text result (λ _. More n) reader.new }
{
    let mut children = Vec::new(alloc);
    for _ in 0..MOST_CHILDREN {
        reader.skip_spaces();
        children.push(policy(alloc, reader, orgs, levels)?)?;
        if !reader.comma()? {
            return Ok(children);
        }
    }
    Err(reader.syntax())
}

/// The name of a known organisation in quotes.
fn leaf(reader: &mut Reader<'_>, orgs: &[OrgName]) -> Result<Policy, PolicyFault>
    ensures read { ParsesBy (λ p. p) result reader.new.rest
        (λ m. leaf_at (is_known_by orgs.now m) reader.old.rest) }
    ensures place { (text : List ℕ) (n : ℕ) → is_quoted reader.old.rest ≡ true →
        IsAt text (Start n) reader.old → Tells text result (λ _. More n) reader.new }
{
    let fault = reader.syntax();
    let Some(name) = OrgName::from_slice(reader.quoted()?) else {
        return Err(fault);
    };
    if !is_among(orgs, &name) {
        return Err(PolicyFault::UnknownOrganisation);
    }
    Ok(Policy::Org(name))
}
