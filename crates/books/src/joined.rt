// The rules of one book, then those of another.

ghost use Rattle.std.specs.Prelude.{◌≡◌, ◌++◌};
ghost use Rattle.books.specs.Reads.{asked};
ghost use Rattle.books.specs.Joined.{placed_rule};

use super::book::Book;
use network::options::OptionSet;
use network::rules::{Arc, Ends, RULES, TOO_MANY};

// Where a rule of the joined book stands: its number in the first or in the second book.
#[derive(Clone, Copy)]
enum Place {
    First(u8),
    Second(u8),
}

#[derive(Drop)]
pub struct Joined<F: Book, S: Book> {
    first: F,
    second: S,
}

impl<F: Book, S: Book> Joined<F, S> {
    pub fn new(first: F, second: S) -> Joined<F, S>
        ensures first { result.first ≡ first }
        ensures second { result.second ≡ second }
    {
        Joined { first, second }
    }

    // The place of the rule that a number asks for.
    fn place(&self, rule: u8) -> Option<Place>
        ensures { asked (F.Book.meaning self.now.first ++ S.Book.meaning self.now.second) rule ≡ placed_rule (F.Book.meaning self.now.first) (S.Book.meaning self.now.second) result }
    {
        if rule >= RULES {
            return None;
        }
        let before = self.first.count();
        if rule < before {
            return Some(Place::First(rule));
        }
        Some(Place::Second(rule - before))
    }
}

impl<F: Book, S: Book> Book for Joined<F, S> {
    ghost meaning = { λ j. F.Book.meaning j.first ++ S.Book.meaning j.second };

    fn count(&self) -> u8 {
        let both = u16::from(self.first.count()) + u16::from(self.second.count());
        both.min(TOO_MANY as u16) as u8
    }

    fn ends(&self, rule: u8) -> Ends {
        match self.place(rule) {
            Some(Place::First(own)) => self.first.ends(own),
            Some(Place::Second(own)) => self.second.ends(own),
            None => Ends::nowhere(),
        }
    }

    fn allows(&self, rule: u8, left: u8, right: u8) -> bool {
        match self.place(rule) {
            Some(Place::First(own)) => self.first.allows(own, left, right),
            Some(Place::Second(own)) => self.second.allows(own, left, right),
            None => false,
        }
    }

    fn partner(&mut self, arc: Arc, option: u8, set: OptionSet) -> Option<u8> {
        let side = arc.side;
        match self.place(arc.rule)? {
            Place::First(rule) => self.first.partner(Arc { rule, side }, option, set),
            Place::Second(rule) => self.second.partner(Arc { rule, side }, option, set),
        }
    }
}
