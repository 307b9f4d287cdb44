// How a draft is opened.

ghost use Rattle.std.specs.Prelude.{IfOk, MatchResult};
ghost use Rattle.agenda.specs.Waiting.{Nothing};
ghost use Rattle.network.specs.Network.{words};
ghost use Rattle.draft.specs.View.{Opens, OpensSets, GivenBack};

use crate::draft::{DECISIONS, Draft, Opened, STRIKES};
use agenda::agenda::Agenda;
use books::book::Book;
use network::options::OptionSet;
use propagation::opening::check_opening;
use std::alloc::{AllocError, Global};

// A draft that was not made for want of memory: what was handed in, and the fault.
#[derive(Drop)]
pub struct Unopened<B, W> {
    pub book: B,
    pub agenda: W,
    pub fault: AllocError,
}

// Opens the sets with all the memory that their calls will ever need, or keeps them as they were refused.
fn open_sets<B: Book>(
    heap: Global,
    sets: &[OptionSet],
    book: &B,
) -> Result<Result<Opened, Vec<OptionSet>>, AllocError>
    ensures { IfOk result (OpensSets (B.Book.meaning book.now) (words sets.now)) }
{
    let opening = Vec::from_slice(heap, sets)?;
    if check_opening(book, sets).is_err() {
        return Ok(Err(opening));
    }
    Ok(Ok(Opened {
        opening,
        standing: Vec::from_slice(heap, sets)?,
        strikes: Vec::with_capacity(heap, STRIKES)?,
        taken: Vec::with_capacity(heap, DECISIONS)?,
    }))
}

impl<B: Book, W: Agenda> Draft<B, W> {
    // Opens a draft with a set for each field. All the memory it needs is got here; where that is wanting, what was
    // handed in comes back as it was.
    pub fn open(
        heap: Global,
        sets: &[OptionSet],
        book: B,
        agenda: W,
    ) -> Result<Self, Unopened<B, W>>
        ensures opens { MatchResult result (Opens book (B.Book.meaning book) (words sets.now)) (GivenBack book agenda) }
        ensures waiting { IfOk result (λ d. Nothing (W.Agenda.waiting d.agenda)) }
    {
        match open_sets(heap, sets, &book) {
            Ok(opened) => {
                let mut agenda = agenda;
                agenda.clear();
                Ok(Draft {
                    book,
                    agenda,
                    opened,
                })
            }
            Err(fault) => Err(Unopened {
                book,
                agenda,
                fault,
            }),
        }
    }
}
