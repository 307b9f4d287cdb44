// Decisions on what was opened.

ghost use Rattle.std.specs.Prelude.{List};
ghost use Rattle.std.specs.Result.{MatchResult};
ghost use Rattle.network.specs.Network.{Rule};
ghost use Rattle.draft.specs.Draft.{Step};
ghost use Rattle.draft.specs.View.{held, Found, NotFound, done};
ghost use Rattle.draft.specs.declared.types.Call.TheVariants as call;

use crate::draft::{DECISIONS, Opened};
use crate::record::strike_others;
use crate::types::Taken;
use faults::EngineFault;
use network::options::{OPTIONS, OptionSet};
use propagation::record::{Cause, Decision, Strike};
use propagation::undo::put_back;

impl Opened {
    // The set in which an option stands that is to be decided on, or why no decision on it can be taken.
    fn find(&self, field: u8, option: u8) -> Result<OptionSet, EngineFault>
        ensures { MatchResult result (Found (held self.now) field option) (NotFound (held self.now) field option) }
    {
        if option >= OPTIONS {
            return Err(EngineFault::OutOfRange);
        }
        let set = self.show(field)?;
        if !set.contains(option) {
            return Err(EngineFault::NotStanding);
        }
        Ok(set)
    }

    // Leaves one option of a field out.
    pub(super) fn exclude(&mut self, field: u8, option: u8) -> Result<(), EngineFault>
        ensures { (rules : List Rule) → Step rules (held self.old) (call.Exclude field option) (done result) (held self.new) }
    {
        let set = self.find(field, option)?;
        let others = set.without(option);
        if others.is_empty() {
            return Err(EngineFault::LastOption);
        }
        if self.taken.len() == DECISIONS {
            return Err(EngineFault::TooManyDecisions);
        }
        let decision = Decision::Exclude { field, option };
        let mark = self.strikes.len();
        self.strikes.push_reserved(Strike {
            field,
            option,
            cause: Cause::Decided(decision),
        });
        self.standing[field as usize] = others;
        self.taken.push_reserved(Taken { decision, mark });
        Ok(())
    }

    // Decides on one option of a field: every other option there is struck.
    pub(super) fn choose(&mut self, field: u8, option: u8) -> Result<(), EngineFault>
        ensures { (rules : List Rule) → Step rules (held self.old) (call.Choose field option) (done result) (held self.new) }
    {
        let set = self.find(field, option)?;
        if self.taken.len() == DECISIONS {
            return Err(EngineFault::TooManyDecisions);
        }
        let mark = self.strikes.len();
        strike_others(&mut self.strikes, set, field, option);
        self.standing[field as usize] = OptionSet::only(option);
        self.taken.push_reserved(Taken {
            decision: Decision::Choose { field, option },
            mark,
        });
        Ok(())
    }

    // Drops the latest decision, and puts back what was struck by it or after it.
    pub(super) fn take_back(&mut self) -> Result<(), EngineFault>
        ensures { (rules : List Rule) → Step rules (held self.old) call.TakeBack (done result) (held self.new) }
    {
        let last = self.taken.pop().ok_or(EngineFault::NoDecision)?;
        put_back(
            self.standing.as_mut_slice(),
            self.strikes.as_slice(),
            last.mark,
        );
        self.strikes.truncate(last.mark);
        Ok(())
    }
}
