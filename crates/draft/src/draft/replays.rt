// Lists of calls, made on a new draft.

ghost use Rattle.std.specs.Prelude.{◌≡◌, ◌≤◌, length, vec_len, vec_capacity, MatchResult};
ghost use Rattle.network.specs.Network.{words};
ghost use Rattle.draft.specs.View.{GivenBack};
ghost use Rattle.draft.specs.Replay.{Performed, Replays};

use crate::draft::Draft;
use crate::draft::opens::Unopened;
use crate::types::{Answer, Call};
use agenda::agenda::Agenda;
use books::book::Book;
use faults::EngineFault;
use network::options::OptionSet;
use std::alloc::Global;

// A draft as a list of calls left it, and their answers in order.
#[derive(Drop)]
pub struct Replayed<B: Book, W: Agenda> {
    pub draft: Draft<B, W>,
    pub answers: Vec<Result<Answer, EngineFault>>,
}

impl<B: Book, W: Agenda> Draft<B, W> {
    // Makes each call of a list, and adds its answer to a list that has room for them.
    fn perform_each(&mut self, calls: &[Call], answers: &mut Vec<Result<Answer, EngineFault>>)
        requires empty { vec_len answers.old ≡ 0 }
        requires room { length calls.now ≤ vec_capacity answers.old }
        ensures meaning { B.Book.meaning self.new.book ≡ B.Book.meaning self.old.book }
        ensures performed { Performed (B.Book.meaning self.old.book) self.old calls.now answers.new.items self.new }
    {
        for call in calls {
            let answer = self.perform(*call);
            answers.push_reserved(answer);
        }
    }

    // Opens a draft and makes a list of calls on it. The law holds at the opening and after each of them.
    pub fn replay(
        heap: Global,
        sets: &[OptionSet],
        book: B,
        agenda: W,
        calls: &[Call],
    ) -> Result<Replayed<B, W>, Unopened<B, W>>
        ensures { MatchResult result (Replays (B.Book.meaning book) (words sets.now) calls.now) (GivenBack book agenda) }
    {
        let mut answers = match Vec::with_capacity(heap, calls.len()) {
            Ok(answers) => answers,
            Err(fault) => {
                return Err(Unopened {
                    book,
                    agenda,
                    fault,
                });
            }
        };
        let mut draft = Draft::open(heap, sets, book, agenda)?;
        draft.perform_each(calls, &mut answers);
        Ok(Replayed { draft, answers })
    }
}
