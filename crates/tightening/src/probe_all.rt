// Probing until nothing waits.

ghost use Rattle.std.specs.Prelude.{◌≡◌, ℕ, ◌<◌, true, List, length, OnOk, OnErr};
ghost use Rattle.network.specs.Network.{Rule, part, words};
ghost use Rattle.agenda.specs.Waiting.{Nothing, number_limit};
ghost use Rattle.books.specs.Pairs.{pairs_of};
ghost use Rattle.propagation.specs.Progress.{Filled};
ghost use Rattle.tightening.specs.Tightening.{Tightest, TightWipedOut};
ghost use Rattle.tightening.specs.Underway.{Between, Begun};

use super::outcome::Emptied;
use super::turn::Probing;
use agenda::agenda::Agenda;
use agenda::job::take_job;

impl<'a> Probing<'a> {
    // Takes the probes that wait, until none does; it is an error if a field then has no option.
    //
    // Why it is right. Three things hold from probe to probe: no strongly dual-consistent part has lost an option or a pair;
    // every pair stands and is of two options that stand; and an option that does not wait could be chosen: the largest
    // arc-consistent part that its choice leaves has an option in every field and everything that it is paired with. A probe
    // takes away only what no strongly dual-consistent part can hold, and what it takes away can upset only the options that
    // were paired with the one probed, and these wait again. When nothing waits, what is left is therefore itself strongly
    // dual-consistent, and holds every other such part: it is the largest. It ends, since each probe takes an option or a
    // pair away or leaves one probe fewer.
    pub(crate) fn probe_all<W: Agenda, V: Agenda>(
        &mut self,
        arcs: &mut W,
        probes: &mut V,
    ) -> Result<(), Emptied>
        requires filled { Filled (words self.old.sets.now) }
        requires only { (k : ℕ) → V.Agenda.waiting probes.old k ≡ true → k < number_limit }
        requires begun { Begun (length self.old.sets.now) (words self.old.sets.now) (words self.old.pairs.now) (V.Agenda.waiting probes.old) }
        ensures sets { self.new.sets.ghost_name ≡ self.old.sets.ghost_name }
        ensures pairs { self.new.pairs.ghost_name ≡ self.old.pairs.ghost_name }
        ensures length { length self.new.sets.now ≡ length self.old.sets.now }
        ensures filled { OnOk result (Filled (words self.new.sets.now)) }
        ensures waiting { OnOk result (Nothing (V.Agenda.waiting probes.new)) }
        ensures tightest { OnOk result ((rules : List Rule) (first : List ℕ) → Between rules first (length self.old.sets.now) (words self.old.sets.now) (words self.old.pairs.now) (V.Agenda.waiting probes.old) → Tightest rules first (part (words self.new.sets.now)) (pairs_of (length self.old.sets.now) (words self.new.pairs.now))) }
        ensures emptied { OnErr result ((rules : List Rule) (first : List ℕ) → Between rules first (length self.old.sets.now) (words self.old.sets.now) (words self.old.pairs.now) (V.Agenda.waiting probes.old) → TightWipedOut rules first) }
    {
        while let Some(probe) = take_job(probes) {
            self.turn(arcs, probes, probe)?;
        }
        Ok(())
    }
}
