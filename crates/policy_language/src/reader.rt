//! A place in the text of a policy.

ghost use Rattle.std.specs.Prelude.{◌≡◌, ◌≤◌, ◌<◌, ◌==◌, ◌↔◌, IsTrue, IfErr, Some, false, true, None, List, [], ℕ, suc, cond, length};
ghost use Rattle.std.specs.List.{list_all, prefix_len};
ghost use Rattle.fab_types.specs.Limits.{is_digit, is_org_name_byte};
ghost use Rattle.policy_language.specs.Parsing.{IsAt, Misses, Parses, Passes, Tells};
ghost use Rattle.policy_language.specs.Operators.{rule_of};
ghost use Rattle.policy_language.specs.Place.{beginning, offset_of};
ghost use Rattle.policy_language.specs.Reading.{after_spaces, bracket_at, comma_at, is_quoted, opening_at, out_of_at, quoted_at, tag_at, threshold_at, token_at, word_at};
ghost use Rattle.policy_language.specs.Spelling.{decimal_after, leads_with_zero};
ghost use Rattle.policy_language.specs.Wrong.{Start, Bracket, CountBracket};

use crate::fault::PolicyFault;
use crate::operator::Operator;
use std::marker::Model;

/// The bytes that are still to be read. Each reader gives what stands at their front and moves past
/// it.
#[derive(Drop)]
pub(crate) struct Reader<'a> {
    rest: &'a [u8],
    /// How many bytes there were.
    total: usize,
}

impl<'a> Model for Reader<'a> {
    ghost use Rattle.policy_language.specs.Place.{Place};

    ghost Value = { Place };

    ghost view = { λ r. record { total = r.total; rest = r.rest.now } };
}

impl<'a> Reader<'a> {
    pub(crate) fn new(bytes: &'a [u8]) -> Reader<'a>
        ensures { result ≡ beginning bytes.now }
    {
        Reader {
            rest: bytes,
            total: bytes.len(),
        }
    }

    /// That no token of a policy's text stands here.
    pub(crate) fn syntax(&self) -> PolicyFault
        ensures { result ≡ PolicyFault.Syntax (offset_of self.now) }
    {
        PolicyFault::Syntax(self.total.saturating_sub(self.rest.len()))
    }

    pub(crate) fn is_at_end(&self) -> bool
        ensures { IsTrue result ↔ (self.now.rest ≡ []) }
    {
        self.rest.is_empty()
    }

    /// Whether a name in quotes comes.
    pub(crate) fn is_quoted(&self) -> bool
        ensures { result ≡ is_quoted self.now.rest }
    {
        matches!(self.rest, [b'\'', ..])
    }

    pub(crate) fn skip_spaces(&mut self)
        ensures rest { self.new.rest ≡ after_spaces self.old.rest }
        ensures total { self.new.total ≡ self.old.total }
    {
        let count = spaces(self.rest);
        self.rest = &self.rest[count..];
    }

    /// Passes over this byte, if it comes.
    fn tag(&mut self, byte: u8) -> bool
        ensures passed { tag_at byte self.old.rest ≡ cond result (Some self.new.rest) None }
        ensures total { self.new.total ≡ self.old.total }
        ensures same { result ≡ false → self.new ≡ self.old }
    {
        match self.rest {
            [first, rest @ ..] if *first == byte => {
                self.rest = rest;
                true
            }
            _ => false,
        }
    }

    /// Passes over spaces and this byte.
    #[tactic(auto, unfolding(crate::specs::Reading::token_at))]
    fn token(&mut self, byte: u8) -> Result<(), PolicyFault>
        ensures passed { Passes result self.new.rest (token_at byte self.old.rest) }
        ensures total { self.new.total ≡ self.old.total }
        ensures stays { IfErr result (λ _. self.new.rest ≡ after_spaces self.old.rest) }
        ensures missed { Misses result self.new (token_at byte self.old.rest ≡ None) }
    {
        self.skip_spaces();
        if !self.tag(byte) {
            return Err(self.syntax());
        }
        Ok(())
    }

    /// Passes over this word, if it comes.
    fn word(&mut self, word: &[u8]) -> bool
        ensures passed { word_at word.now self.old.rest ≡ cond result (Some self.new.rest) None }
        ensures total { self.new.total ≡ self.old.total }
        ensures same { result ≡ false → self.new ≡ self.old }
    {
        match self.rest.strip_prefix(word) {
            Some(rest) => {
                self.rest = rest;
                true
            }
            None => false,
        }
    }

    /// The name in quotes.
    #[tactic(auto, unfolding(crate::specs::Reading::quoted_at))]
    pub(crate) fn quoted(&mut self) -> Result<&'a [u8], PolicyFault>
        ensures read { Parses (λ s. s.now) result self.new.rest (quoted_at self.old.rest) }
        ensures total { self.new.total ≡ self.old.total }
        ensures missed { Misses result self.old (quoted_at self.old.rest ≡ None) }
    {
        let fault = self.syntax();
        if !self.tag(b'\'') {
            return Err(fault);
        }
        let (name, rest) = self.rest.split_at(name_bytes(self.rest));
        self.rest = rest;
        if !self.tag(b'\'') {
            return Err(fault);
        }
        Ok(name)
    }

    /// A threshold.
    #[tactic(auto, unfolding(crate::specs::Reading::threshold_at))]
    fn threshold(&mut self) -> Result<u32, PolicyFault>
        ensures read { Parses (λ n. n) result self.new.rest (threshold_at self.old.rest) }
        ensures total { self.new.total ≡ self.old.total }
        ensures missed { Misses result self.old (threshold_at self.old.rest ≡ None) }
    {
        let count = digits(self.rest);
        if count < 1 || count > 4 {
            return Err(self.syntax());
        }
        let (digits, rest) = self.rest.split_at(count);
        if leads_with_zero(digits) {
            return Err(self.syntax());
        }
        self.rest = rest;
        Ok(decimal(digits))
    }

    /// An operator up to its first child.
    #[tactic(auto, unfolding(crate::specs::Reading::opening_at))]
    pub(crate) fn opening(&mut self) -> Result<Operator, PolicyFault>
        ensures read { Parses rule_of result self.new.rest (opening_at self.old.rest) }
        ensures place { (text : List ℕ) (n : ℕ) → is_quoted self.old.rest ≡ false →
            IsAt text (Start n) self.old → Tells text result (λ _. Start (suc n)) self.new }
    {
        if self.word(b"AND") {
            return self.bracket(Operator::And);
        }
        if self.word(b"OR") {
            return self.bracket(Operator::Or);
        }
        if self.word(b"OutOf") {
            return self.out_of();
        }
        Err(self.syntax())
    }

    /// The bracket of an operator without a threshold.
    fn bracket(&mut self, operator: Operator) -> Result<Operator, PolicyFault>
        ensures read { Parses rule_of result self.new.rest
            (bracket_at (rule_of operator) self.old.rest) }
        ensures place { (text : List ℕ) (n : ℕ) → IsAt text (Bracket n) self.old →
            Tells text result (λ _. Start (suc n)) self.new }
    {
        self.token(b'(')?;
        Ok(operator)
    }

    /// The bracket, the threshold and the comma of an operator with a threshold.
    fn out_of(&mut self) -> Result<Operator, PolicyFault>
        ensures read { Parses rule_of result self.new.rest (out_of_at self.old.rest) }
        ensures place { (text : List ℕ) (n : ℕ) → IsAt text (CountBracket n) self.old →
            Tells text result (λ _. Start (suc n)) self.new }
    {
        self.token(b'(')?;
        self.skip_spaces();
        let threshold = self.threshold()?;
        self.token(b',')?;
        Ok(Operator::OutOf(threshold))
    }

    /// Whether another child comes, after a comma, or the operator ends.
    #[tactic(auto, unfolding(crate::specs::Reading::comma_at))]
    pub(crate) fn comma(&mut self) -> Result<bool, PolicyFault>
        ensures read { Parses (λ b. b) result self.new.rest (comma_at self.old.rest) }
        ensures total { self.new.total ≡ self.old.total }
        ensures stays { IfErr result (λ _. self.new.rest ≡ after_spaces self.old.rest) }
        ensures missed { Misses result self.new (comma_at self.old.rest ≡ None) }
    {
        self.skip_spaces();
        match self.rest {
            [b',', rest @ ..] => {
                self.rest = rest;
                Ok(true)
            }
            [b')', rest @ ..] => {
                self.rest = rest;
                Ok(false)
            }
            _ => Err(self.syntax()),
        }
    }
}

/// How many spaces stand at the front.
fn spaces(bytes: &[u8]) -> usize
    ensures count { result ≡ prefix_len (λ b. b == 32) bytes.now }
    ensures within { result ≤ length bytes.now }
{
    bytes.iter().take_while(|b| **b == b' ').count()
}

/// How many bytes of a name stand at the front.
pub(crate) fn name_bytes(bytes: &[u8]) -> usize
    ensures count { result ≡ prefix_len is_org_name_byte bytes.now }
    ensures within { result ≤ length bytes.now }
{
    bytes
        .iter()
        .take_while(|b| matches!(b, b'A'..=b'Z' | b'a'..=b'z' | b'0'..=b'9' | b'_'))
        .count()
}

/// How many digits stand at the front.
fn digits(bytes: &[u8]) -> usize
    ensures count { result ≡ prefix_len is_digit bytes.now }
    ensures within { result ≤ length bytes.now }
{
    bytes
        .iter()
        .take_while(|b| matches!(b, b'0'..=b'9'))
        .count()
}

/// Whether a digit 0 stands before others.
fn leads_with_zero(digits: &[u8]) -> bool
    ensures { result ≡ leads_with_zero digits.now }
{
    matches!(digits, [b'0', _, ..])
}

/// The number that up to four digits stand for.
fn decimal(digits: &[u8]) -> u32
    requires few { length digits.now ≤ 4 }
    requires digits { list_all is_digit digits.now ≡ true }
    ensures { result ≡ decimal_after 0 digits.now }
{
    let mut value = 0;
    for digit in digits {
        value = 10 * value + u32::from(*digit - b'0');
    }
    value
}
