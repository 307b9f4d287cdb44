// What the agenda lowest urgency first does.

ghost use Rattle.std.specs.Prelude.{◌≡◌, ℕ, drop, Some, None, nat_lt};
ghost use Rattle.std.specs.Option.{option_map};
ghost use Rattle.agenda.specs.Waiting.{number_limit, Nothing, Same, put_number, Taken};
ghost use Rattle.agenda.specs.Sequence.{first_of};
ghost use Rattle.agenda.specs.Urgent.{any_urgency, in_order, Foremost, with_urgency, dropped, dropped_if};
ghost use Rattle.agenda.specs.Ranked.{urgencies_of};

use super::{LowestUrgency, URGENCIES};
use crate::agenda::{Agenda, NUMBERS};
use crate::number::Number;
use crate::numbers::NumberSet;

impl LowestUrgency {
    // An agenda on which nothing waits.
    pub fn new() -> LowestUrgency
        ensures { (k : ℕ) → urgencies_of result k ≡ None }
    {
        LowestUrgency {
            urgencies: [None; NUMBERS],
            buckets: [NumberSet::new(); URGENCIES],
            busy: NumberSet::new(),
        }
    }

    // Enters a number that does not wait into the bucket of its urgency.
    fn enter(&mut self, number: Number, urgency: u8)
        requires { urgencies_of self.old number.value ≡ None }
        ensures { (k : ℕ) → urgencies_of self.new k ≡ with_urgency (urgencies_of self.old) number.value urgency k }
    {
        self.urgencies[number.value as usize] = Some(urgency);
        self.buckets[urgency as usize].insert(number);
        self.busy.insert(Number::from(urgency));
    }

    // Takes a number that waits out of the bucket of its urgency.
    fn leave(&mut self, number: Number, urgency: u8)
        requires { urgencies_of self.old number.value ≡ Some urgency }
        ensures { (k : ℕ) → urgencies_of self.new k ≡ dropped (urgencies_of self.old) number.value k }
    {
        self.urgencies[number.value as usize] = None;
        let bucket = &mut self.buckets[urgency as usize];
        bucket.remove(number);
        if bucket.lowest().is_none() {
            self.busy.remove(Number::from(urgency));
        }
    }

    // The number to be taken next: of those with the lowest urgency the lowest.
    fn foremost(&self) -> Option<Number>
        ensures answer { option_map (λ n. n.value) result ≡ first_of (in_order (urgencies_of self.now)) }
        ensures waits { Foremost (urgencies_of self.now) (option_map (λ n. n.value) result) }
    {
        let urgency = self.busy.lowest()?;
        self.buckets[urgency.value as usize].lowest()
    }

    // Lets a number wait no longer, if it waits.
    fn withdraw(&mut self, number: Number)
        ensures { (k : ℕ) → urgencies_of self.new k ≡ dropped (urgencies_of self.old) number.value k }
    {
        if let Some(urgency) = self.urgencies[number.value as usize] {
            self.leave(number, urgency);
        }
    }
}

impl Agenda for LowestUrgency {
    ghost waiting = { λ l. any_urgency (urgencies_of l) };

    // A number that waits already takes the new urgency.
    fn put(&mut self, number: u16, urgency: u8) -> bool
        ensures answer { result ≡ nat_lt number number_limit }
        ensures waiting { Same (put_number (any_urgency (urgencies_of self.old)) number) (any_urgency (urgencies_of self.new)) }
        ensures urgencies { (k : ℕ) → urgencies_of self.new k ≡ with_urgency (urgencies_of self.old) number urgency k }
    {
        let Some(number) = Number::new(number) else {
            return false;
        };
        self.withdraw(number);
        self.enter(number, urgency);
        true
    }

    // Of the numbers with the lowest urgency the lowest is taken.
    fn take(&mut self) -> Option<u16>
        ensures taken { Taken (any_urgency (urgencies_of self.old)) result (any_urgency (urgencies_of self.new)) }
        ensures answer { result ≡ first_of (in_order (urgencies_of self.old)) }
        ensures order { in_order (urgencies_of self.new) ≡ drop 1 (in_order (urgencies_of self.old)) }
        ensures urgencies { (k : ℕ) → urgencies_of self.new k ≡ dropped_if (urgencies_of self.old) result k }
    {
        let number = self.foremost()?;
        self.withdraw(number);
        Some(number.value)
    }

    fn clear(&mut self)
        ensures waiting { Nothing (any_urgency (urgencies_of self.new)) }
        ensures urgencies { (k : ℕ) → urgencies_of self.new k ≡ None }
    {
        *self = LowestUrgency::new();
    }
}
