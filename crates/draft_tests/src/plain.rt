// A plain computation of what a settle has to leave, from the opening sets, the formula rules and the decisions in force.
// It shares nothing with the engine but the types.

use draft::types::Taken;
use network::options::{OPTIONS, OptionSet};
use network::rules::{FormulaRule, Kind, Side};
use propagation::record::Decision;

// How many options stand in all sets together.
pub fn total(sets: &[OptionSet]) -> usize {
    sets.iter().fold(0usize, |count, set| {
        count.saturating_add(usize::from(set.len()))
    })
}

// Whether a rule allows a pair.
fn allows(rule: FormulaRule, left: u8, right: u8) -> bool {
    let difference = i16::from(left).saturating_sub(i16::from(right));
    let back = i16::from(right).saturating_sub(i16::from(left));
    let limit = i16::from(rule.difference);
    match rule.kind {
        Kind::Equal => difference == limit,
        Kind::Different => difference != limit,
        Kind::AtMost => difference <= limit,
        Kind::Apart => difference >= limit || back >= limit,
        Kind::Unknown => false,
    }
}

// Whether an option on one side of a rule has a partner in the set on the other.
fn has_partner(rule: FormulaRule, side: Side, option: u8, others: OptionSet) -> bool {
    (0..OPTIONS).any(|other| {
        others.contains(other)
            && match side {
                Side::Left => allows(rule, option, other),
                Side::Right => allows(rule, other, option),
            }
    })
}

// Takes what has no partner under one rule out of the sets of both its fields.
fn revise(rule: FormulaRule, sets: &mut [OptionSet]) {
    let left = usize::from(rule.left);
    let right = usize::from(rule.right);
    if left >= sets.len() || right >= sets.len() {
        return;
    }
    for option in 0..OPTIONS {
        if !has_partner(rule, Side::Left, option, sets[right]) {
            sets[left] = sets[left].without(option);
        }
        if !has_partner(rule, Side::Right, option, sets[left]) {
            sets[right] = sets[right].without(option);
        }
    }
}

fn revise_all(rules: &[FormulaRule], sets: &mut [OptionSet]) {
    for rule in rules {
        revise(*rule, sets);
    }
}

// Revises until nothing changes. Each round but the last takes out one of at most 512 options.
pub fn settle(rules: &[FormulaRule], sets: &mut [OptionSet]) {
    for _ in 0..513u16 {
        let before = total(sets);
        revise_all(rules, sets);
        if total(sets) == before {
            return;
        }
    }
}

// What one decision leaves.
fn decide(decision: Decision, sets: &mut [OptionSet]) {
    match decision {
        Decision::Choose { field, option } => {
            if let Some(set) = sets.get_mut(usize::from(field)) {
                *set = set.intersection(OptionSet::only(option));
            }
        }
        Decision::Exclude { field, option } => {
            if let Some(set) = sets.get_mut(usize::from(field)) {
                *set = set.without(option);
            }
        }
    }
}

// What the decisions in force leave.
pub fn decide_all(taken: &[Taken], sets: &mut [OptionSet]) {
    for one in taken {
        decide(one.decision, sets);
    }
}
