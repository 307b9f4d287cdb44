// Rules by tables.

ghost use Rattle.std.specs.Prelude.{◌≡◌, ℕ};
ghost use Rattle.std.specs.Option.{option_map_or};
ghost use Rattle.network.specs.Network.{has, no_rule, words};
ghost use Rattle.books.specs.Reads.{asked, Found};
ghost use Rattle.books.specs.Table.{row_of, table_rule, table_rules};

use super::book::Book;
use super::lent::{rule_count, rule_entry, set_at};
use network::options::{OPTIONS, OptionSet};
use network::rules::{Arc, Ends, Side};

// A book over lent ends, one pair a rule, and lent rows: for each rule in turn, the set of right options that each left option is allowed with.
// They are handed in as they lie in the caller's memory, so they are two lists.
#[derive(Clone, Copy)]
pub struct TableBook<'a> {
    ends: &'a [Ends],
    rows: &'a [OptionSet],
}

impl<'a> TableBook<'a> {
    pub fn new(ends: &'a [Ends], rows: &'a [OptionSet]) -> TableBook<'a>
        ensures ends { result.ends.now ≡ ends.now }
        ensures rows { result.rows.now ≡ rows.now }
    {
        TableBook { ends, rows }
    }

    // The ends of the rule that a number asks for.
    fn ends_of(&self, rule: u8) -> Option<Ends>
        ensures { asked (table_rules self.now.ends.now (words self.now.rows.now)) rule ≡ option_map_or (table_rule (words self.now.rows.now) rule) result no_rule }
    {
        rule_entry(self.ends, rule)
    }

    // The options that a rule allows on the right with an option on the left.
    fn row(&self, rule: u8, left: u8) -> OptionSet
        ensures { result.word ≡ row_of (words self.now.rows.now) rule left }
    {
        set_at(
            self.rows,
            usize::from(rule) * usize::from(OPTIONS) + usize::from(left),
        )
    }

    // An option of the set in whose row the right option is. The table has no columns, so the rows are tried.
    fn partner_on_left(&self, rule: u8, right: u8, set: OptionSet) -> Option<u8>
        ensures { Found (λ (left : ℕ). has (row_of (words self.now.rows.now) rule left) right) set.word result }
    {
        set.find(|left| self.row(rule, left).contains(right))
    }
}

impl<'a> Book for TableBook<'a> {
    ghost meaning = { λ b. table_rules b.ends.now (words b.rows.now) };

    fn count(&self) -> u8 {
        rule_count(self.ends)
    }

    fn ends(&self, rule: u8) -> Ends {
        self.ends_of(rule).unwrap_or_else(Ends::nowhere)
    }

    fn allows(&self, rule: u8, left: u8, right: u8) -> bool {
        let Some(ends) = self.ends_of(rule) else {
            return false;
        };
        ends.are_fields()
            & (((left < OPTIONS) & (right < OPTIONS)) & self.row(rule, left).contains(right))
    }

    fn partner(&mut self, arc: Arc, option: u8, set: OptionSet) -> Option<u8> {
        let ends = self.ends_of(arc.rule)?;
        if ends.are_fields() & (option < OPTIONS) {
            return match arc.side {
                Side::Left => set.intersection(self.row(arc.rule, option)).lowest(),
                Side::Right => self.partner_on_left(arc.rule, option, set),
            };
        }
        None
    }
}
