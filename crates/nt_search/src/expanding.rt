//! One state of a search is expanded: each turn that may be taken there is tried.
ghost use Rattle.std.specs.Prelude.{◌≡◌, ◌<◌, ◌∷◌, [], IfErr, IfOk, List, OnOk, false, get_or};
ghost use Rattle.std.specs.Prelude.{length, ℕ};
ghost use Rattle.nt_event.specs.declared.events.Event.{Event as TheEvent};
ghost use Rattle.nt_search.specs.Machines.{Stands};
ghost use Rattle.nt_search.specs.Searches.{AreFound, AreTried, AreTriedAhead, IsAt, IsEndNoted};
ghost use Rattle.nt_search.specs.Searches.{IsExpanded, IsPlan, IsStopped};
ghost use Rattle.nt_search.specs.declared.plan.Plan.{Plan as ThePlan};
ghost use Rattle.nt_search.specs.Stations.{IsTrial};
ghost use Rattle.nt_search.specs.Ways.{Lead};

use crate::failures::Failure;
use crate::found::Found;
use crate::judging::{judge_end, judge_event};
use crate::machine::Machine;
use crate::plan::Plan;
use crate::states::Way;
use crate::stop::Stop;
use nt_ahead::turns_ahead;
use nt_event::Turn;
use std::alloc::{AllocError, Global};

/// Whether the turn is a look at several classes at once.
pub(crate) fn is_wide(turn: &Turn) -> bool {
    match turn {
        Turn::Look(_, rises) => rises.value.iter().filter(|value| **value != 0).count() > 1,
        Turn::Next(_) | Turn::Switch(_, _) => false,
    }
}

/// A machine that takes turns from where another one stands.
#[derive(Drop)]
pub(crate) struct Trial<'s> {
    pub(crate) machine: Machine<'s>,
    /// It took a turn, so that it no longer stands there.
    pub(crate) is_spent: bool,
}

impl<'s> Trial<'s> {
    /// One that stands where the machine does.
    pub(crate) fn new(alloc: Global, machine: &Machine<'s>) -> Result<Trial<'s>, AllocError>
        ensures { IfOk result (λ t. (x : ThePlan) (all : List (List TheEvent)) (n : ℕ) →
            IsAt x all n machine.now → IsTrial x all n t) }
    {
        Ok(Trial {
            machine: machine.copy(alloc)?,
            is_spent: false,
        })
    }

    /// It stands where the machine does. After an error it may stand elsewhere.
    fn stand_as(&mut self, alloc: Global, machine: &Machine<'s>) -> Result<(), AllocError>
        ensures { OnOk result ((x : ThePlan) (all : List (List TheEvent)) (n : ℕ) →
            IsAt x all n machine.now → IsTrial x all n self.old → IsAt x all n self.new.machine) }
    {
        if self.is_spent {
            self.machine.renew(alloc, machine)?;
        }
        Ok(())
    }
}

impl<'s> Plan<'s> {
    /// The machine takes these turns, which may be taken where it stands.
    pub(crate) fn walk(&self, machine: &mut Machine<'s>, turns: &[Turn]) -> Result<(), AllocError>
        requires at { (from : List TheEvent) × (h : List TheEvent) ×
            Lead self.now.script.now turns.now from h × (length h < self.now.limit) ×
            Stands self.now.script.now self.now.limit self.now.watched.items from machine.old }
        ensures { OnOk result ((from : List TheEvent) (h : List TheEvent) →
            Lead self.now.script.now turns.now from h → length h < self.now.limit →
            Stands self.now.script.now self.now.limit self.now.watched.items from machine.old →
            Stands self.now.script.now self.now.limit self.now.watched.items h machine.new) }
    {
        let watched = self.watched.as_slice();
        for place in 0..turns.len() {
            machine.take(&turns[place], watched)?;
        }
        Ok(())
    }

    /// The next machine, which stands as the machine does in the state of this number, takes the
    /// turn. What comes of it is noted in what was found, the state with this mark. False where it
    /// is refused: then the next machine stands there still.
    pub(crate) fn try_next(
        &self,
        alloc: Global,
        machine: &Machine<'s>,
        next: &mut Machine<'s>,
        from: u32,
        turn: &Turn,
        mark: u32,
        found: &mut Found,
    ) -> Result<bool, Stop>
        requires plan { IsPlan self.now }
        requires at { (all : List (List TheEvent)) × AreFound self.now all found.old ×
            IsAt self.now all from machine.now × IsAt self.now all from next.old }
        ensures tried { OnOk result ((all : List (List TheEvent)) →
            AreFound self.now all found.old →
            IsAt self.now all from machine.now → IsAt self.now all from next.old →
            AreTried self.now all (get_or all from []) (turn.now ∷ []) found.old found.new) }
        ensures refused { IfOk result (λ b. b ≡ false → (all : List (List TheEvent)) →
            IsAt self.now all from next.old → IsAt self.now all from next.new) }
        ensures stopped { IfErr result (λ stop. (all : List (List TheEvent)) →
            AreFound self.now all found.old → IsAt self.now all from machine.now →
            IsAt self.now all from next.old → IsStopped self.now all stop found.new) }
    {
        if !next.take(turn, self.watched.as_slice())? {
            return Ok(false);
        }
        let key = next.key(alloc, &mut found.states, mark)?;
        let failure = Failure {
            state: from,
            turn: Some(*turn),
            at: machine.took,
        };
        judge_event(
            self.expectations,
            &next.event,
            machine,
            next,
            failure,
            &mut found.failures,
        );
        found.edges = found.edges.saturating_add(u64::from(!is_wide(turn)));
        found.lead(key, Way { from, turn: *turn }, self.most)?;
        Ok(true)
    }

    /// Tries the turn from the state of this number, in which the machine stands. What comes of it
    /// is noted in what was found, the state with this mark. False where the turn is refused.
    pub(crate) fn try_turn(
        &self,
        alloc: Global,
        machine: &Machine<'s>,
        next: &mut Trial<'s>,
        from: u32,
        turn: &Turn,
        mark: u32,
        found: &mut Found,
    ) -> Result<bool, Stop>
        requires plan { IsPlan self.now }
        requires at { (all : List (List TheEvent)) × AreFound self.now all found.old ×
            IsAt self.now all from machine.now × IsTrial self.now all from next.old }
        ensures tried { OnOk result ((all : List (List TheEvent)) →
            AreFound self.now all found.old →
            IsAt self.now all from machine.now → IsTrial self.now all from next.old →
            AreTried self.now all (get_or all from []) (turn.now ∷ []) found.old found.new) }
        ensures next { OnOk result ((all : List (List TheEvent)) →
            IsAt self.now all from machine.now → IsTrial self.now all from next.old →
            IsTrial self.now all from next.new) }
        ensures stopped { IfErr result (λ stop. (all : List (List TheEvent)) →
            AreFound self.now all found.old → IsAt self.now all from machine.now →
            IsTrial self.now all from next.old → IsStopped self.now all stop found.new) }
    {
        next.stand_as(alloc, machine)?;
        let taken = self.try_next(alloc, machine, &mut next.machine, from, turn, mark, found)?;
        next.is_spent = taken;
        Ok(taken)
    }

    /// Tries each of these turns from the state of this number, in which the machine stands. What
    /// comes of them is noted in what was found.
    fn try_all(
        &self,
        alloc: Global,
        machine: &Machine<'s>,
        next: &mut Trial<'s>,
        from: u32,
        turns: &[Turn],
        found: &mut Found,
    ) -> Result<(), Stop>
        requires plan { IsPlan self.now }
        requires at { (all : List (List TheEvent)) × AreFound self.now all found.old ×
            IsAt self.now all from machine.now × IsTrial self.now all from next.old }
        ensures tried { OnOk result ((all : List (List TheEvent)) →
            AreFound self.now all found.old →
            IsAt self.now all from machine.now → IsTrial self.now all from next.old →
            AreTried self.now all (get_or all from []) turns.now found.old found.new) }
        ensures stopped { IfErr result (λ stop. (all : List (List TheEvent)) →
            AreFound self.now all found.old → IsAt self.now all from machine.now →
            IsTrial self.now all from next.old → IsStopped self.now all stop found.new) }
    {
        for place in 0..turns.len() {
            self.try_turn(alloc, machine, next, from, &turns[place], 0, found)?;
        }
        Ok(())
    }

    /// Tries each turn that may be taken from the state of this number, in which the machine
    /// stands.
    fn try_ahead(
        &self,
        alloc: Global,
        machine: &Machine<'s>,
        from: u32,
        found: &mut Found,
    ) -> Result<(), Stop>
        requires plan { IsPlan self.now }
        requires at { (all : List (List TheEvent)) × AreFound self.now all found.old ×
            IsAt self.now all from machine.now }
        ensures tried { OnOk result ((all : List (List TheEvent)) →
            AreFound self.now all found.old →
            IsAt self.now all from machine.now →
            AreTriedAhead self.now all (get_or all from []) found.old found.new) }
        ensures stopped { IfErr result (λ stop. (all : List (List TheEvent)) →
            AreFound self.now all found.old → IsAt self.now all from machine.now →
            IsStopped self.now all stop found.new) }
    {
        let unnoticed = machine.unnoticed(alloc)?;
        let turns = turns_ahead(alloc, self.script, &unnoticed)?;
        let mut next = Trial::new(alloc, machine)?;
        let tried = self.try_all(alloc, machine, &mut next, from, turns.as_slice(), found);
        drop(next);
        tried
    }

    /// Notes which expectations the state of this number, in which the machine stands, shows to
    /// fail where all is quiet there.
    pub(crate) fn note_end(&self, machine: &Machine<'s>, from: u32, found: &mut Found)
        requires plan { IsPlan self.now }
        requires at { (all : List (List TheEvent)) × AreFound self.now all found.old ×
            IsAt self.now all from machine.now }
        ensures { (all : List (List TheEvent)) → AreFound self.now all found.old →
            IsAt self.now all from machine.now →
            IsEndNoted self.now all (get_or all from []) found.old found.new }
    {
        if machine.processors.settled(&machine.floor) {
            let failure = Failure {
                state: from,
                turn: None,
                at: machine.took,
            };
            judge_end(self.expectations, machine, failure, &mut found.failures);
        }
    }

    /// Expands the state of this number, in which the machine stands: tries each turn that may be
    /// taken there. What comes of them is noted in what was found, and what the state shows where
    /// all is quiet there.
    pub(crate) fn expand(
        &self,
        alloc: Global,
        machine: &Machine<'s>,
        from: u32,
        found: &mut Found,
    ) -> Result<(), Stop>
        requires plan { IsPlan self.now }
        requires at { (all : List (List TheEvent)) × AreFound self.now all found.old ×
            IsAt self.now all from machine.now }
        requires opened { found.old.graph.opened ≡ [] }
        ensures expanded { OnOk result ((all : List (List TheEvent)) →
            AreFound self.now all found.old → IsAt self.now all from machine.now →
            IsExpanded self.now all (get_or all from []) found.old found.new) }
        ensures stopped { IfErr result (λ stop. (all : List (List TheEvent)) →
            AreFound self.now all found.old → IsAt self.now all from machine.now →
            IsStopped self.now all stop found.new) }
    {
        self.note_end(machine, from, found);
        self.try_ahead(alloc, machine, from, found)?;
        found.graph.close()?;
        Ok(())
    }
}
