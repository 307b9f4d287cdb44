// The settle of what was opened.

ghost use Rattle.std.specs.Prelude.{◌≡◌};
ghost use Rattle.agenda.specs.Waiting.{Nothing};
ghost use Rattle.draft.specs.Draft.{Step};
ghost use Rattle.draft.specs.View.{held, settled};
ghost use Rattle.draft.specs.declared.types.Call.TheVariants as call;

use crate::draft::Opened;
use crate::settling::{count_options, settle_sets};
use agenda::agenda::Agenda;
use books::book::Book;
use faults::EngineFault;
use propagation::opening::check_opening;

impl Opened {
    // Leaves the largest arc-consistent part of what stands, and tells how many options it struck and how many now
    // stand. Where a field would become empty nothing changes, and the fault names the field and a rule of it.
    pub(super) fn settle<B: Book, W: Agenda>(
        &mut self,
        book: &mut B,
        agenda: &mut W,
    ) -> Result<(u16, u16), EngineFault>
        ensures meaning { B.Book.meaning book.new ≡ B.Book.meaning book.old }
        ensures waiting { Nothing (W.Agenda.waiting agenda.new) }
        ensures step { Step (B.Book.meaning book.old) (held self.old) call.Settle (settled result) (held self.new) }
    {
        // The type cannot say that the book's rules fit the sets, so that is looked at again.
        let Ok(()) = check_opening(book, self.standing.as_slice()) else {
            agenda.clear();
            return Err(EngineFault::NotOpened);
        };
        let before = self.strikes.len();
        settle_sets(
            self.standing.as_mut_slice(),
            book,
            agenda,
            &mut self.strikes,
        )?;
        let struck = self.strikes.len() - before;
        Ok((struck as u16, count_options(self.standing.as_slice())))
    }
}
