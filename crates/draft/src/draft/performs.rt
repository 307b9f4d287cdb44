// Calls as values, and lists of them.

ghost use Rattle.std.specs.Prelude.{◌≡◌};
ghost use Rattle.draft.specs.View.{Answers, view};
ghost use Rattle.draft.specs.Law.{KeepsTheLaw};

use crate::draft::Draft;
use crate::types::{Answer, Call};
use agenda::agenda::Agenda;
use books::book::Book;
use faults::EngineFault;

impl<B: Book, W: Agenda> Draft<B, W> {
    // Makes one call by the method of its name. A match, since each call has its own arguments and its own answer.
    fn make(&mut self, call: Call) -> Result<Answer, EngineFault>
        ensures meaning { B.Book.meaning self.new.book ≡ B.Book.meaning self.old.book }
        ensures answer { Answers (B.Book.meaning self.old.book) self.old call result self.new }
    {
        match call {
            Call::Choose { field, option } => {
                self.choose(field, option)?;
                Ok(Answer::Done)
            }
            Call::Exclude { field, option } => {
                self.exclude(field, option)?;
                Ok(Answer::Done)
            }
            Call::Settle => {
                let (struck, standing) = self.settle()?;
                Ok(Answer::Settled(struck, standing))
            }
            Call::TakeBack => {
                self.take_back()?;
                Ok(Answer::Done)
            }
            Call::Show { field } => Ok(Answer::Shown(self.show(field)?)),
        }
    }

    // Makes one call. Whatever calls led here from an accepted opening, the law holds before it and after it.
    pub fn perform(&mut self, call: Call) -> Result<Answer, EngineFault>
        ensures meaning { B.Book.meaning self.new.book ≡ B.Book.meaning self.old.book }
        ensures answer { Answers (B.Book.meaning self.old.book) self.old call result self.new }
        ensures law { KeepsTheLaw (B.Book.meaning self.old.book) (view self.old) (view self.new) }
    {
        self.make(call)
    }
}
