// A catalogue in preparation.

ghost use Rattle.std.specs.Prelude.{◌≡◌, nat_le};
ghost use Rattle.network.specs.Network.{rule_limit};
ghost use Rattle.catalogue.specs.Content.{unprepared, outcome, field_refusal, with_field, table_refusal, with_table, row_refusal, with_row, formula_refusal, with_formula, unfit_formula, fields_full, tables_full, formulas_full, rule_count};
ghost use Rattle.catalogue.specs.View.{content};
ghost use Rattle.propagation.specs.Refusals.{answer};

mod closing;

use crate::lent::LentVec;
use faults::EngineFault;
use network::options::{OPTIONS, OptionSet};
use network::rules::{Ends, FIELDS, FormulaRule, Kind, RULES};

// Fields and rules that are being entered, in lent memory: a set for each field, two ends and 32 rows for each
// table rule, a record for each formula rule.
#[derive(Drop)]
pub struct Preparation<'a> {
    pub(crate) sets: LentVec<'a, OptionSet>,
    pub(crate) ends: LentVec<'a, Ends>,
    pub(crate) rows: LentVec<'a, OptionSet>,
    pub(crate) formulas: LentVec<'a, FormulaRule>,
}

fn unfit_formula(rule: FormulaRule) -> bool
    ensures { result ≡ unfit_formula rule }
{
    rule.ends().are_unfit(FIELDS)
        || rule.kind == Kind::Unknown
        || rule.difference < -31
        || rule.difference > 31
}

impl<'a> Preparation<'a> {
    // A catalogue with nothing entered, over lent memory.
    pub fn new(
        sets: &'a mut [OptionSet],
        ends: &'a mut [Ends],
        rows: &'a mut [OptionSet],
        formulas: &'a mut [FormulaRule],
    ) -> Preparation<'a>
        ensures { content result ≡ unprepared sets.old ends.old rows.old formulas.old }
    {
        Preparation {
            sets: LentVec::new(sets),
            ends: LentVec::new(ends),
            rows: LentVec::new(rows),
            formulas: LentVec::new(formulas),
        }
    }

    // Whether 128 rules were entered.
    fn rules_full(&self) -> bool
        ensures { result ≡ nat_le rule_limit (rule_count (content self.now)) }
    {
        self.ends.len().saturating_add(self.formulas.len()) >= RULES as usize
    }

    fn fields_full(&self) -> bool
        ensures { result ≡ fields_full (content self.now) }
    {
        (self.sets.len() >= FIELDS as usize) | (self.sets.room() == 0)
    }

    fn tables_full(&self) -> bool
        ensures { result ≡ tables_full (content self.now) }
    {
        self.rules_full() | ((self.ends.room() == 0) | (self.rows.room() < OPTIONS as usize))
    }

    fn formulas_full(&self) -> bool
        ensures { result ≡ formulas_full (content self.now) }
    {
        self.rules_full() | (self.formulas.room() == 0)
    }

    // Enters a field under its number, which must be the next. An empty set is taken here; closing refuses it.
    pub fn enter_field(&mut self, field: u8, set: OptionSet) -> Result<(), EngineFault>
        ensures answers { result ≡ answer (field_refusal (content self.old) field) }
        ensures after { content self.new ≡ outcome (field_refusal (content self.old) field) (content self.old) (with_field (content self.old) set) }
    {
        if self.fields_full() {
            return Err(EngineFault::Full);
        }
        if field as usize != self.sets.len() {
            return Err(EngineFault::NotNext);
        }
        let _ = self.sets.push(set);
        Ok(())
    }

    // Starts a table rule between two fields, with no pair. The fields need not be entered yet.
    pub fn start_table(&mut self, ends: Ends) -> Result<(), EngineFault>
        ensures answers { result ≡ answer (table_refusal (content self.old) ends) }
        ensures after { content self.new ≡ outcome (table_refusal (content self.old) ends) (content self.old) (with_table (content self.old) ends) }
    {
        if ends.are_unfit(FIELDS) {
            return Err(EngineFault::UnfitRule);
        }
        if self.tables_full() {
            return Err(EngineFault::Full);
        }
        let _ = self.ends.push(ends);
        let _ = self.rows.extend(OPTIONS as usize, OptionSet::empty());
        Ok(())
    }

    // Replaces a row of the newest table rule, also where formula rules came after it.
    pub fn set_row(&mut self, option: u8, set: OptionSet) -> Result<(), EngineFault>
        ensures answers { result ≡ answer (row_refusal (content self.old) option) }
        ensures after { content self.new ≡ outcome (row_refusal (content self.old) option) (content self.old) (with_row (content self.old) option set) }
    {
        let tables = self.ends.len();
        if tables == 0 {
            return Err(EngineFault::NoTable);
        }
        if option >= OPTIONS {
            return Err(EngineFault::OutOfRange);
        }
        let first = (tables - 1).saturating_mul(OPTIONS as usize);
        let _ = self.rows.set(first.saturating_add(option as usize), set);
        Ok(())
    }

    // Enters a formula rule. The fields need not be entered yet.
    pub fn enter_formula(&mut self, rule: FormulaRule) -> Result<(), EngineFault>
        ensures answers { result ≡ answer (formula_refusal (content self.old) rule) }
        ensures after { content self.new ≡ outcome (formula_refusal (content self.old) rule) (content self.old) (with_formula (content self.old) rule) }
    {
        if unfit_formula(rule) {
            return Err(EngineFault::UnfitRule);
        }
        if self.formulas_full() {
            return Err(EngineFault::Full);
        }
        let _ = self.formulas.push(rule);
        Ok(())
    }
}
