// Opening the drafts of the tests.

use agenda::agenda::Agenda;
use books::book::Book;
use draft::draft::Draft;
use network::options::OptionSet;
use std::alloc::Global;
use std::test::Fail;

// A draft over the sets and the book; the test fails where memory is wanting.
pub fn open<B: Book + Drop, W: Agenda + Drop>(
    heap: Global,
    sets: &[OptionSet],
    book: B,
    agenda: W,
) -> Result<Draft<B, W>, Fail> {
    let Ok(draft) = Draft::open(heap, sets, book, agenda) else {
        return Err(Fail::new("no memory"));
    };
    Ok(draft)
}
