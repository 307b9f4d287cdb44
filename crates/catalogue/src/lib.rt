// The catalogue: fields and rules, first in preparation, then closed.
//
// To enter:   preparation::Preparation with new, enter_field, start_table, set_row, enter_formula
// To close:   Preparation::close, which uses the preparation up, or hands it back as it was
// To read:    closed::Closed with sets, table_book, formula_book
// Memory:     lent::LentVec, a vector in lent memory
#![tactic(auto)]

pub mod closed;
pub mod lent;
pub mod preparation;
