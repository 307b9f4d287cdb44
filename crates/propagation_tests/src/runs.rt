// Runs of an example.

use agenda::agenda::Agenda;
use agenda::first::FirstCome;
use agenda::lowest::LowestUrgency;
use books::book::Book;
use books::formula::FormulaBook;
use books::remembering::Remembering;
use books::table::TableBook;
use network::options::{OPTIONS, OptionSet};
use propagation::opening::check_opening;
use propagation::propagate::propagate;
use propagation::record::{Strike, WipedOut};
use propagation::undo::put_back;
use std::alloc::Global;
use std::process::Abort;
use std::test::Fail;

// Rows for three rules.
const ROWS: usize = 96;

// Sets, and what is to come of their propagation.
#[derive(Clone, Copy)]
pub struct Example<'a> {
    pub first: &'a [OptionSet],
    pub last: &'a [OptionSet],
    pub answer: Result<(), WipedOut>,
    pub strikes: usize,
    // the first of the strikes
    pub begins: &'a [Strike],
}

fn check_sets(rt: &impl Abort, found: &[OptionSet], wanted: &[OptionSet]) -> Result<(), Fail> {
    assert_eq!(rt; found.len(), wanted.len());
    for (set, other) in found.iter().zip(wanted.iter()) {
        assert_eq!(rt; *set, *other);
    }
    Ok(())
}

fn check_strikes(rt: &impl Abort, found: &[Strike], example: Example) -> Result<(), Fail> {
    assert_eq!(rt; found.len(), example.strikes);
    assert!(rt; example.begins.len() <= found.len());
    for (strike, wanted) in found.iter().zip(example.begins.iter()) {
        assert_eq!(rt; *strike, *wanted);
    }
    Ok(())
}

// Propagates the sets of an example, and puts the strikes back.
fn run<B: Book, W: Agenda>(
    rt: &impl Abort,
    heap: Global,
    book: &mut B,
    agenda: &mut W,
    sets: &mut [OptionSet],
    example: Example,
) -> Result<(), Fail> {
    let Ok(()) = check_opening(book, sets) else {
        return Err(Fail::new("not accepted"));
    };
    let Ok(mut strikes) = Vec::<Strike>::with_capacity(heap, 512) else {
        return Err(Fail::new("no memory"));
    };
    assert_eq!(rt; propagate(sets, book, agenda, &mut strikes), example.answer);
    check_sets(rt, sets, example.last)?;
    check_strikes(rt, &strikes, example)?;
    assert_eq!(rt; agenda.take(), None);
    put_back(sets, &strikes, 0);
    check_sets(rt, sets, example.first)
}

// Runs an example with both agendas, one after the other over the same book.
fn with_agendas<B: Book>(
    rt: &impl Abort,
    heap: Global,
    book: &mut B,
    sets: &mut [OptionSet],
    example: Example,
) -> Result<(), Fail> {
    run(rt, heap, book, &mut FirstCome::new(), sets, example)?;
    run(rt, heap, book, &mut LowestUrgency::new(), sets, example)
}

// The options on the right that a rule allows with one on the left.
fn row(book: &FormulaBook, rule: u8, left: u8) -> OptionSet {
    let mut row = OptionSet::empty();
    for right in 0..OPTIONS {
        if book.allows(rule, left, right) {
            row = row.with(right);
        }
    }
    row
}

// The rules of a book, up to three, as rows.
pub fn rows(book: &FormulaBook) -> [OptionSet; ROWS] {
    let mut rows = [OptionSet::empty(); ROWS];
    for (place, options) in rows.iter_mut().enumerate() {
        let place = place as u8;
        *options = row(book, place / OPTIONS, place % OPTIONS);
    }
    rows
}

// Runs an example under formula rules, and again under their rows, each with and without residues.
pub fn check_everywhere(
    rt: &impl Abort,
    heap: Global,
    formulas: FormulaBook,
    tables: TableBook,
    sets: &mut [OptionSet],
    example: Example,
) -> Result<(), Fail> {
    let mut formulas = formulas;
    let mut tables = tables;
    with_agendas(rt, heap, &mut formulas, sets, example)?;
    with_agendas(rt, heap, &mut tables, sets, example)?;
    with_agendas(rt, heap, &mut Remembering::new(formulas), sets, example)?;
    with_agendas(rt, heap, &mut Remembering::new(tables), sets, example)
}
