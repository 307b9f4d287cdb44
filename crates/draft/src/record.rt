// The strike record: entering what a choose strikes.

ghost use Rattle.std.specs.Prelude.{◌≡◌, ◌+◌, ◌^◌, ◌<◌, ◌≤◌, ◌++◌, length, vec_len, vec_capacity};
ghost use Rattle.network.specs.Network.{option_limit};
ghost use Rattle.draft.specs.Draft.{choose_strikes};

use network::options::OptionSet;
use propagation::record::{Cause, Decision, Strike};

// Enters the strikes of a choose: every option of the set but the chosen one, by rising option.
pub(crate) fn strike_others(strikes: &mut Vec<Strike>, set: OptionSet, field: u8, option: u8)
    requires fits { set.word < 2 ^ option_limit }
    requires room { vec_len strikes.old + length (choose_strikes set.word field option) ≤ vec_capacity strikes.old }
    ensures items { strikes.new.items ≡ strikes.old.items ++ choose_strikes set.word field option }
    ensures capacity { vec_capacity strikes.new ≡ vec_capacity strikes.old }
{
    let cause = Cause::Decided(Decision::Choose { field, option });
    let mut others = set.without(option);
    while let Some(other) = others.take_lowest() {
        strikes.push_reserved(Strike {
            field,
            option: other,
            cause,
        });
    }
}
