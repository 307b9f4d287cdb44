// Rules by formulas on the difference of their two options.

ghost use Rattle.std.specs.Prelude.{◌≡◌, ℕ, ◌&&◌, pos, ◌-ℤ◌, int_le};
ghost use Rattle.std.specs.Option.{option_map_or};
ghost use Rattle.network.specs.Network.{has, no_rule};
ghost use Rattle.books.specs.Reads.{asked, permits, permits_on};
ghost use Rattle.books.specs.Formula.{fulfils, formula_rule, formula_rules, difference_on, meeting_on, before_on};

use super::book::Book;
use super::lent::{rule_count, rule_entry};
use network::options::{OPTIONS, OptionSet};
use network::rules::{Arc, Ends, FormulaRule, Kind, Side};

// A book over a lent list of records, one a rule.
#[derive(Clone, Copy)]
pub struct FormulaBook<'a> {
    rules: &'a [FormulaRule],
}

impl<'a> FormulaBook<'a> {
    pub fn new(rules: &'a [FormulaRule]) -> FormulaBook<'a>
        ensures { result.rules.now ≡ rules.now }
    {
        FormulaBook { rules }
    }

    // The record of the rule that a number asks for.
    fn record_of(&self, rule: u8) -> Option<FormulaRule>
        ensures { asked (formula_rules self.now.rules.now) rule ≡ option_map_or formula_rule result no_rule }
    {
        rule_entry(self.rules, rule)
    }
}

impl<'a> Book for FormulaBook<'a> {
    ghost meaning = { λ b. formula_rules b.rules.now };

    fn count(&self) -> u8 {
        rule_count(self.rules)
    }

    fn ends(&self, rule: u8) -> Ends {
        self.record_of(rule)
            .map_or_else(Ends::nowhere, FormulaRule::ends)
    }

    fn allows(&self, rule: u8, left: u8, right: u8) -> bool {
        self.record_of(rule)
            .is_some_and(|found| permitted(found, left, right))
    }

    fn partner(&mut self, arc: Arc, option: u8, set: OptionSet) -> Option<u8> {
        partners(self.record_of(arc.rule)?, arc.side, option, set).lowest()
    }
}

// Whether a rule between two fields allows a pair of options that fields can have.
fn permitted(rule: FormulaRule, left: u8, right: u8) -> bool
    ensures { result ≡ permits (formula_rule rule) left right }
{
    rule.ends().are_fields()
        & (((left < OPTIONS) & (right < OPTIONS)) & fulfilled(rule, left, right))
}

// Whether the difference of two options is one that the rule's kind allows.
fn fulfilled(rule: FormulaRule, left: u8, right: u8) -> bool
    ensures { result ≡ fulfils rule.kind rule.difference (pos left -ℤ pos right) }
{
    let difference = i16::from(left) - i16::from(right);
    let number = i16::from(rule.difference);
    match rule.kind {
        Kind::Equal => difference == number,
        Kind::Different => difference != number,
        Kind::AtMost => difference <= number,
        Kind::Apart => difference.abs() >= number,
        Kind::Unknown => false,
    }
}

// The options of the set whose pair with an option on that side the rule allows. Side and option stay two here and below: in a struct
// they would be put together only to be taken apart for the difference.
fn partners(rule: FormulaRule, side: Side, option: u8, set: OptionSet) -> OptionSet
    ensures { (b : ℕ) → has result.word b ≡ (has set.word b && permits_on (formula_rule rule) side option b) }
{
    if rule.ends().are_fields() & (option < OPTIONS) {
        return fulfilling(rule, side, option, set);
    }
    OptionSet::empty()
}

// The options of the set whose difference with an option on that side the rule's kind allows.
fn fulfilling(rule: FormulaRule, side: Side, option: u8, set: OptionSet) -> OptionSet
    ensures { (b : ℕ) → has result.word b ≡ (has set.word b && fulfils rule.kind rule.difference (difference_on side option b)) }
{
    let own = i16::from(option);
    let number = i16::from(rule.difference);
    let across = meeting(side, option, rule.difference);
    match rule.kind {
        Kind::Equal => up_to(starting_at(set, across), across),
        Kind::Different => up_to(set, across - 1).union(starting_at(set, across + 1)),
        Kind::AtMost => at_most(side, set, across),
        Kind::Apart => up_to(set, own - number).union(starting_at(set, own + number)),
        Kind::Unknown => OptionSet::empty(),
    }
}

// Where the rule's number is met: the number across whose difference with an option on that side it is.
fn meeting(side: Side, option: u8, difference: i8) -> i16
    ensures { result ≡ meeting_on side option difference }
{
    match side {
        Side::Left => i16::from(option) - i16::from(difference),
        Side::Right => i16::from(option) + i16::from(difference),
    }
}

// The options of the set whose difference is at most the rule's number, given where that is met: from the left, greater options differ less.
fn at_most(side: Side, set: OptionSet, across: i16) -> OptionSet
    ensures { (b : ℕ) → has result.word b ≡ (has set.word b && before_on side across b) }
{
    match side {
        Side::Left => starting_at(set, across),
        Side::Right => up_to(set, across),
    }
}

// The options of the set that are at most a number.
fn up_to(set: OptionSet, number: i16) -> OptionSet
    ensures { (b : ℕ) → has result.word b ≡ (has set.word b && int_le (pos b) number) }
{
    set.below((number.clamp(-1, i16::from(OPTIONS)) + 1) as u8)
}

// The options of the set that are at least a number.
fn starting_at(set: OptionSet, number: i16) -> OptionSet
    ensures { (b : ℕ) → has result.word b ≡ (has set.word b && int_le number (pos b)) }
{
    set.starting_at(number.clamp(0, i16::from(OPTIONS)) as u8)
}
