// Reading lent lists: of sets, and with an entry for each rule.

ghost use Rattle.std.specs.Prelude.{◌≡◌, ◌+◌, min, length, slice_index};
ghost use Rattle.network.specs.Network.{rule_limit, words};
ghost use Rattle.books.specs.Reads.{listed};

use network::options::OptionSet;
use network::rules::{RULES, TOO_MANY};

// The set at a place of a list; past the end it is empty.
pub fn set_at(sets: &[OptionSet], place: usize) -> OptionSet
    ensures { result.word ≡ slice_index (words sets.now) place }
{
    sets.get(place).copied().unwrap_or(OptionSet::empty())
}

// How many rules there are in a list with an entry for each; 129 stands for any number above 128.
pub fn rule_count<T>(entries: &[T]) -> u8
    ensures { result ≡ min (rule_limit + 1) (length entries.now) }
{
    entries.len().min(usize::from(TOO_MANY)) as u8
}

// The entry of a rule in a list with an entry for each; none for a number above 127, or past the list.
pub fn rule_entry<T: Copy>(entries: &[T], rule: u8) -> Option<T>
    ensures { result ≡ listed entries.now rule }
{
    if rule >= RULES {
        return None;
    }
    entries.get(usize::from(rule)).copied()
}
