// An agenda that takes first what has the lowest urgency.

ghost use Rattle.std.specs.Prelude.{◌≡◌, ℕ, ◌<◌, is_some, Some, slice_index_or};
ghost use Rattle.agenda.specs.Waiting.{number_limit};
ghost use Rattle.agenda.specs.Sequence.{first_of, rising};
ghost use Rattle.agenda.specs.Numbered.{numbers, no_numbers};
ghost use Rattle.agenda.specs.Urgent.{listed, urgent, urgency_limit};

use crate::agenda::NUMBERS;
use crate::numbers::NumberSet;

mod order;

// How many urgencies there are.
const URGENCIES: usize = 256;

// Lowest urgency first, ties to the lower number. For each urgency a bucket has the numbers that wait with it, and the
// busy urgencies are those whose bucket is not empty: so a take looks at a few words and not at every number.
// Fixed memory: no call on a draft allocates, so the tables are arrays and no maps of the library.
#[derive(Drop)]
pub struct LowestUrgency {
    urgencies: [Option<u8>; NUMBERS],
    buckets: [NumberSet; URGENCIES],
    busy: NumberSet,
    ghost within: { (k v : ℕ) → listed urgencies k ≡ Some v → (k < number_limit) × (v < urgency_limit) },
    ghost filed: { (v k : ℕ) → v < urgency_limit → numbers (slice_index_or buckets v no_numbers) k ≡ urgent (listed urgencies) v k },
    ghost shown: { (v : ℕ) → numbers busy v ≡ is_some (first_of (rising (urgent (listed urgencies) v) number_limit)) },
}
