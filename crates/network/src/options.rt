// Sets of options of one field. Only this file knows how many options a word holds.

ghost use Rattle.std.specs.Prelude.{◌≡◌, bit_and, bit_or, count_ones, nat_eq};
ghost use Rattle.network.specs.Network.{has};
ghost use Rattle.network.specs.Sets.{alone, set_without, set_with, set_below, set_from, lowest_of, Lowest, rest_after, FirstPassing};

// How many options a field can have; they are numbered from 0.
pub const OPTIONS: u8 = 32;

// A set of options: bit a of the word, counted from the lowest, stands for option a. In memory it is that word.
#[repr(C)]
#[derive(Clone, Copy, PartialEq, Eq, Debug)]
pub struct OptionSet {
    word: u32,
}

// The set that a word stands for.
impl From<u32> for OptionSet {
    ghost from_gives = { λ word r. r.word ≡ word };

    fn from(word: u32) -> OptionSet {
        Self { word }
    }
}

// The word that stands for a set.
impl From<OptionSet> for u32 {
    ghost from_gives = { λ set r. r ≡ set.word };

    fn from(set: OptionSet) -> u32 {
        set.word
    }
}

impl OptionSet {
    pub fn empty() -> OptionSet
        ensures { result.word ≡ 0 }
    {
        OptionSet { word: 0 }
    }

    // The set of one option; empty where no field has such an option.
    pub fn only(option: u8) -> OptionSet
        ensures { result.word ≡ alone option }
    {
        let word = if option < OPTIONS { 1 << option } else { 0 };
        OptionSet { word }
    }

    pub fn is_empty(self) -> bool
        ensures { result ≡ nat_eq self.word 0 }
    {
        self.word == 0
    }

    // How many options are in the set.
    pub fn len(self) -> u8
        ensures { result ≡ count_ones self.word }
    {
        self.word.count_ones() as u8
    }

    pub fn contains(self, option: u8) -> bool
        ensures { result ≡ has self.word option }
    {
        option < OPTIONS && (self.word >> option) % 2 == 1
    }

    pub fn without(self, option: u8) -> OptionSet
        ensures { result.word ≡ set_without self.word option }
    {
        let word = self.word & !OptionSet::only(option).word;
        OptionSet { word }
    }

    // The set and one option more; unchanged where no field has such an option.
    pub fn with(self, option: u8) -> OptionSet
        ensures { result.word ≡ set_with self.word option }
    {
        let word = self.word | OptionSet::only(option).word;
        OptionSet { word }
    }

    pub fn intersection(self, other: OptionSet) -> OptionSet
        ensures { result.word ≡ bit_and self.word other.word }
    {
        let word = self.word & other.word;
        OptionSet { word }
    }

    pub fn union(self, other: OptionSet) -> OptionSet
        ensures { result.word ≡ bit_or self.word other.word }
    {
        let word = self.word | other.word;
        OptionSet { word }
    }

    // The options of the set that are below a number.
    pub fn below(self, bound: u8) -> OptionSet
        ensures { result.word ≡ set_below self.word bound }
    {
        if bound >= OPTIONS {
            return self;
        }
        let word = self.word & ((1 << bound) - 1);
        OptionSet { word }
    }

    // The options of the set from a number on.
    pub fn starting_at(self, bound: u8) -> OptionSet
        ensures { result.word ≡ set_from self.word bound }
    {
        if bound >= OPTIONS {
            return OptionSet::empty();
        }
        let word = (self.word >> bound) << bound;
        OptionSet { word }
    }

    // The lowest option of the set.
    pub fn lowest(self) -> Option<u8>
        ensures answer { result ≡ lowest_of self.word }
        ensures least { Lowest self.word result }
    {
        if self.is_empty() {
            return None;
        }
        Some(self.word.trailing_zeros() as u8)
    }

    // The lowest option of the set, which is taken out of it; called again and again it tells the options by rising number.
    pub fn take_lowest(&mut self) -> Option<u8>
        ensures answer { result ≡ lowest_of self.old.word }
        ensures least { Lowest self.old.word result }
        ensures after { self.new.word ≡ rest_after self.old.word result }
    {
        let lowest = self.lowest()?;
        *self = self.without(lowest);
        Some(lowest)
    }

    // The lowest option of the set for which the test answers yes; it is put to the options by rising number.
    pub fn find<F: Fn(u8) -> bool>(self, test: F) -> Option<u8>
        requires { F.IsAlwaysCallable test }
        ensures { FirstPassing (λ a yes. F.post test a yes) self.word result }
    {
        let mut waiting = self;
        while let Some(option) = waiting.take_lowest() {
            if test(option) {
                return Some(option);
            }
        }
        None
    }
}
