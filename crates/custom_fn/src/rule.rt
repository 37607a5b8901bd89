// Rules of custom functions: bands and tiers over pairs of numbers.
ghost use Rattle.std.specs.Prelude.{◌≡◌, ◌<◌, ◌≤◌, ◌^◌, ◌*◌, ◌*ℤ◌, pos, unsigned_abs, ℤ, List, Option, Some, None, if◌then◌else◌, length, true};
ghost use Rattle.cell_value.specs.declared.fault.FaultKind.TheVariants.{Na, Num};
ghost use Rattle.custom_fn.specs.Pairs.{are_bands, are_tiers, begins_at_zero, rises, rises_above, band_of, tier_part, tier_total};
ghost use Rattle.custom_fn.specs.Answer.{banded, rounded, tiered};

use cell_value::{FaultKind, Scalar};
use fix_num::{Fixed, LIMIT, ONE};
use std::marker::Model;

/// The most pairs of a rule. This project's own limit.
pub const MAX_PAIRS: usize = 64;

/// Bands of numbers: each begins at the first number of its pair, and has the second one as its value.
///
/// Contracts see the list of pairs, in millionths: 1 to [`MAX_PAIRS`], whose first numbers rise strictly.
#[derive(Drop, Debug)]
pub struct Bands {
    pairs: Vec<(Fixed, Fixed)>,
}

impl Model for Bands {
    ghost Value = { List (ℤ × ℤ) };

    ghost view = { λ b. b.pairs.items };

    ghost invariant = { λ b. are_bands b.pairs.items ≡ true };
}

/// Tiers of an amount: each begins at the first number of its pair, and has the second one as its rate.
///
/// Contracts see the list of pairs, in millionths: bands of which the first begins at 0.
#[derive(Drop, Debug)]
pub struct Tiers {
    pairs: Vec<(Fixed, Fixed)>,
}

impl Model for Tiers {
    ghost Value = { List (ℤ × ℤ) };

    ghost view = { λ t. t.pairs.items };

    ghost invariant = { λ t. are_tiers t.pairs.items ≡ true };
}

/// What a custom function answers. This project's own.
#[derive(Drop, Debug)]
pub enum Rule {
    /// The value of the last band that doesn't begin above the number; `#N/A` where there is none.
    Bands(Bands),
    /// The sum over all tiers of the rate times the part of the number that lies in the tier, rounded
    /// once. `#NUM!` of a negative number.
    Tiers(Tiers),
}

impl Bands {
    /// The value of the last band that doesn't begin above the number.
    pub fn value_of(&self, x: Fixed) -> Option<Fixed>
        ensures { result ≡ band_of x self.now }
    {
        let last = self.pairs.iter().rev().find(|pair| pair.0 <= x)?;
        Some(last.1)
    }
}

impl Tiers {
    /// The sum over all tiers of the rate times the part of the number that lies in the tier, rounded
    /// once half away from zero. `#NUM!` of a negative number, and where the sum is beyond the limits.
    pub fn value_of(&self, x: Fixed) -> Scalar
        ensures { result ≡ tiered x self.now }
    {
        if x.is_negative() {
            Scalar::Fault(FaultKind::Num)
        } else {
            rounded(tier_total(x.size(), self.pairs()))
        }
    }

    // The pairs, which are few.
    fn pairs(&self) -> &[(Fixed, Fixed)]
        ensures pairs { result.now ≡ self.now }
        ensures few { length result.now ≤ MAX_PAIRS }
    {
        &self.pairs
    }
}

impl Rule {
    ghost use Rattle.custom_fn.specs.Rule.{rule_value};
    ghost use Rattle.custom_fn.specs.declared.rule.Rule.TheVariants as rules;

    /// The rule of these bands: pairs of where each begins and its value.
    ///
    /// `None` exactly where there are none or more than [`MAX_PAIRS`], or one doesn't begin above the one
    /// before it.
    pub fn bands(list: Vec<(Fixed, Fixed)>) -> Option<Rule>
        ensures { result ≡ (if are_bands list.items then Some (rules.Bands list.items) else None) }
    {
        if are_bands(&list) {
            Some(Rule::Bands(Bands { pairs: list }))
        } else {
            None
        }
    }

    /// The rule of these tiers: pairs of where each begins and its rate.
    ///
    /// `None` exactly where they are no bands, or the first doesn't begin at 0.
    pub fn tiers(list: Vec<(Fixed, Fixed)>) -> Option<Rule>
        ensures { result ≡ (if are_tiers list.items then Some (rules.Tiers list.items) else None) }
    {
        if are_tiers(&list) {
            Some(Rule::Tiers(Tiers { pairs: list }))
        } else {
            None
        }
    }

    /// What the rule answers of a value: the fault that keeps it from being a number, if there is one, else
    /// what the bands or tiers answer of the number. At most [`MAX_PAIRS`] pairs are looked at.
    pub fn value_of(&self, x: &Scalar) -> Scalar
        ensures { result ≡ rule_value self.now x.now }
    {
        match (self, x.as_number()) {
            (_, Err(fault)) => Scalar::Fault(fault),
            (Rule::Bands(bands), Ok(number)) => banded(bands.value_of(number)),
            (Rule::Tiers(tiers), Ok(number)) => tiers.value_of(number),
        }
    }
}

// The value of a band, or `#N/A` where there is none.
fn banded(value: Option<Fixed>) -> Scalar
    ensures { result ≡ banded value }
{
    match value {
        Some(number) => Scalar::Number(number),
        None => Scalar::Fault(FaultKind::Na),
    }
}

// Whether there are 1 to MAX_PAIRS pairs, and each begins above the one before it.
fn are_bands(pairs: &[(Fixed, Fixed)]) -> bool
    ensures { result ≡ are_bands pairs.now }
{
    1 <= pairs.len() && pairs.len() <= MAX_PAIRS && rises(pairs)
}

// Whether they are bands of which the first begins at 0.
fn are_tiers(pairs: &[(Fixed, Fixed)]) -> bool
    ensures { result ≡ are_tiers pairs.now }
{
    are_bands(pairs) && begins_at_zero(pairs)
}

// Whether the first pair begins at 0.
fn begins_at_zero(pairs: &[(Fixed, Fixed)]) -> bool
    ensures { result ≡ begins_at_zero pairs.now }
{
    match pairs.first() {
        Some(pair) => pair.0 == Fixed::ZERO,
        None => false,
    }
}

// Whether each pair begins above the one before it.
fn rises(pairs: &[(Fixed, Fixed)]) -> bool
    ensures { result ≡ rises pairs.now }
{
    match pairs.split_first() {
        Some((first, rest)) => rises_above(first.0, rest),
        None => true,
    }
}

// Whether each pair begins above the one before it, and the first above the number.
fn rises_above(number: Fixed, pairs: &[(Fixed, Fixed)]) -> bool
    ensures { result ≡ rises_above number pairs.now }
{
    let mut last = number;
    'pairs: for pair in pairs {
        if pair.0 <= last {
            return false;
        }
        last = pair.0;
    }
    true
}

// How much of an amount lies between where a tier begins and where the next one does.
fn tier_part(x: u64, from: Fixed, rest: &[(Fixed, Fixed)]) -> u64
    ensures part { result ≡ tier_part x from rest.now }
    ensures within { result ≤ x }
{
    let end = match rest.first() {
        Some(next) => x.min(next.0.size()),
        None => x,
    };
    end.saturating_sub(from.size())
}

// The rate times a part of an amount.
fn paid(rate: Fixed, part: u64) -> i128
    requires { part < LIMIT }
    ensures paid { result ≡ rate *ℤ pos part }
    ensures small { unsigned_abs result ≤ LIMIT * LIMIT }
{
    i128::from(rate.millionths()) * i128::from(part)
}

// The sum over all tiers of the rate times the part of the amount that lies in the tier.
fn tier_total(x: u64, pairs: &[(Fixed, Fixed)]) -> i128
    requires amount { x < LIMIT }
    requires few { length pairs.now ≤ MAX_PAIRS }
    ensures total { result ≡ tier_total x pairs.now }
    ensures small { unsigned_abs result ≤ MAX_PAIRS * (LIMIT * LIMIT) }
{
    let mut total = 0;
    let mut rest = pairs;
    'tiers: while let Some((pair, after)) = rest.split_first() {
        total += paid(pair.1, tier_part(x, pair.0, after));
        rest = after;
    }
    total
}

// Millionths of millionths as a number, rounded half away from zero; `#NUM!` beyond the limits.
fn rounded(total: i128) -> Scalar
    requires { unsigned_abs total ≤ MAX_PAIRS * (LIMIT * LIMIT) }
    ensures { result ≡ rounded total }
{
    let one = u128::from(ONE);
    Scalar::from(Fixed::signed(total < 0, (2 * total.unsigned_abs() + one) / (2 * one)))
}
