// Undoing strikes.

ghost use Rattle.std.specs.Prelude.{◌≡◌, ℕ, List, drop};
ghost use Rattle.network.specs.Network.{Rule, words};
ghost use Rattle.propagation.specs.Strikes.{Struck};
ghost use Rattle.propagation.specs.Undo.{Fit, put_one, put_all};
ghost use Rattle.propagation.specs.declared.record.Decision.{Decision};

use crate::record::Strike;
use network::options::OptionSet;

// Puts the option of one strike back, if its field is one.
fn put_back_one(sets: &mut [OptionSet], strike: Strike)
    ensures { words sets.new ≡ put_one (words sets.old) strike }
{
    let field = strike.field as usize;
    if field >= sets.len() {
        return;
    }
    sets[field] = sets[field].with(strike.option);
}

// Puts the options of all strikes but the first `mark` back, the latest first. Where those strikes led from some sets
// to the present ones, these are then again the first.
pub fn put_back(sets: &mut [OptionSet], strikes: &[Strike], mark: usize)
    ensures after { words sets.new ≡ put_all (words sets.old) (drop mark strikes.now) }
    ensures restored { (rules : List Rule) (decisions : List Decision) (first : List ℕ) → Fit first → Struck rules decisions first (drop mark strikes.now) (words sets.old) → words sets.new ≡ first }
{
    let later = &strikes[mark.min(strikes.len())..];
    for strike in later.iter().rev() {
        put_back_one(sets, *strike);
    }
}
