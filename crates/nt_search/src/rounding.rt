//! The turns that lead once round states that lead round.
//!
//! The ways tell by which turns a state was found first. Round the states they do not lead: each
//! state was found with event numbers of its own. So a machine goes round, and at each state takes
//! the first turn that leads to the next one.
ghost use Rattle.std.specs.List.{flat_map};
ghost use Rattle.std.specs.Prelude.{◌≡◌, ◌≤◌, ◌<◌, ◌+◌, ◌*◌, [], IfOk, IfSome, IsTrue, List};
ghost use Rattle.std.specs.Prelude.{get_or, length, true};
ghost use Rattle.nt_event.specs.declared.events.Event.{Event as TheEvent};
ghost use Rattle.nt_event.specs.Script.{fits};
ghost use Rattle.nt_expect.specs.Expectations.{expectations_fit};
ghost use Rattle.nt_verdict.specs.Closed.{watched_by};
ghost use Rattle.nt_search.specs.Rounding.{AreOf, GoRound, HasGoneOn, HasTaken, IsAfter};
ghost use Rattle.nt_search.specs.Rounding.{RoundsAreEndless, TurnLeads};
ghost use Rattle.nt_search.specs.Searches.{AreRound, IsPlan};
ghost use Rattle.nt_search.specs.States.{AreStates};
ghost use Rattle.nt_search.specs.Ways.{Lead};

use crate::machine::Machine;
use crate::plan::Plan;
use crate::states::States;
use crate::stations::Stations;
use crate::stop::Stop;
use nt_ahead::turns_ahead;
use nt_event::limits::{EVENTS, TURNS};
use nt_event::{Script, Turn};
use nt_expect::Expectation;
use nt_shows::watch;
use std::alloc::{AllocError, Global};

/// The state after the one at this place of a round: after the last comes the first.
fn state_after(round: &[u32], place: usize) -> u32
    requires { place < length round.now }
    ensures on { place + 1 < length round.now → result ≡ get_or round.now (place + 1) 0 }
    ensures back { place + 1 ≡ length round.now → result ≡ get_or round.now 0 0 }
{
    if place + 1 < round.len() {
        round[place + 1]
    } else {
        round[0]
    }
}

impl<'s> Plan<'s> {
    /// Whether the next machine comes to the state of this number by the turn. It took it then.
    fn comes_to(
        &self,
        alloc: Global,
        next: &mut Machine<'s>,
        turn: &Turn,
        states: &States,
        number: u32,
    ) -> Result<bool, AllocError>
        requires plan { IsPlan self.now }
        requires after { (past : List TheEvent) × IsAfter self.now past next.old }
        ensures { IfOk result (λ b. IsTrue b → (all : List (List TheEvent))
            (past : List TheEvent) → AreOf self.now all states.now →
            IsAfter self.now past next.old → TurnLeads self.now all past turn.now number) }
    {
        if !next.take(turn, self.watched.as_slice())? {
            return Ok(false);
        }
        let shade = next.shade(alloc)?;
        let comes = states.is_of(number, &shade, &next.came);
        drop(shade);
        Ok(comes)
    }

    /// Whether the turn leads from where the machine stands to the state of this number.
    fn leads_to(
        &self,
        alloc: Global,
        machine: &Machine<'s>,
        turn: &Turn,
        states: &States,
        number: u32,
    ) -> Result<bool, AllocError>
        requires plan { IsPlan self.now }
        requires after { (past : List TheEvent) × IsAfter self.now past machine.now }
        ensures { IfOk result (λ b. IsTrue b → (all : List (List TheEvent))
            (past : List TheEvent) → AreOf self.now all states.now →
            IsAfter self.now past machine.now → TurnLeads self.now all past turn.now number) }
    {
        let mut next = machine.copy(alloc)?;
        let comes = self.comes_to(alloc, &mut next, turn, states, number);
        drop(next);
        comes
    }

    /// The first of these turns that leads from where the machine stands to the state of this
    /// number.
    fn first_to(
        &self,
        alloc: Global,
        machine: &Machine<'s>,
        turns: &[Turn],
        states: &States,
        number: u32,
    ) -> Result<Option<Turn>, AllocError>
        requires plan { IsPlan self.now }
        requires after { (past : List TheEvent) × IsAfter self.now past machine.now }
        ensures { IfOk result (λ o. IfSome o (λ turn. (all : List (List TheEvent))
            (past : List TheEvent) → AreOf self.now all states.now →
            IsAfter self.now past machine.now → TurnLeads self.now all past turn number)) }
    {
        for place in 0..turns.len() {
            if self.leads_to(alloc, machine, &turns[place], states, number)? {
                return Ok(Some(turns[place]));
            }
        }
        Ok(None)
    }

    /// The first turn ahead that leads from where the machine stands to the state of this number.
    fn turn_to(
        &self,
        alloc: Global,
        machine: &Machine<'s>,
        states: &States,
        number: u32,
    ) -> Result<Option<Turn>, AllocError>
        requires plan { IsPlan self.now }
        requires after { (past : List TheEvent) × IsAfter self.now past machine.now }
        ensures { IfOk result (λ o. IfSome o (λ turn. (all : List (List TheEvent))
            (past : List TheEvent) → AreOf self.now all states.now →
            IsAfter self.now past machine.now → TurnLeads self.now all past turn number)) }
    {
        let unnoticed = machine.unnoticed(alloc)?;
        let turns = turns_ahead(alloc, self.script, &unnoticed)?;
        let turn = self.first_to(alloc, machine, turns.as_slice(), states, number)?;
        Ok(turn)
    }

    /// The machine, which took these turns, goes on to the state of this number by one turn more,
    /// which is added. False where it took as many as a processor may make, or where no turn ahead
    /// leads to a state with that key; then both are as they were.
    fn go_on(
        &self,
        alloc: Global,
        machine: &mut Machine<'s>,
        turns: &mut Vec<Turn>,
        states: &States,
        number: u32,
    ) -> Result<bool, AllocError>
        requires plan { IsPlan self.now }
        requires at { (all : List (List TheEvent)) × (past : List TheEvent) ×
            AreOf self.now all states.now ×
            HasTaken self.now turns.old.items past machine.old }
        ensures { IfOk result (λ b. IsTrue b → (all : List (List TheEvent))
            (past : List TheEvent) → AreOf self.now all states.now →
            HasTaken self.now turns.old.items past machine.old →
            HasGoneOn self.now all past number turns.new.items machine.new) }
    {
        if self.limit as usize <= turns.len() {
            return Ok(false);
        }
        match self.turn_to(alloc, machine, states, number)? {
            Some(turn) => {
                machine.take(&turn, self.watched.as_slice())?;
                turns.push(turn)?;
                Ok(true)
            }
            None => Ok(false),
        }
    }

    /// The machine, which took these turns to the first state of the round, goes once round. The
    /// turns are added. False where it does not come round.
    fn go_round(
        &self,
        alloc: Global,
        machine: &mut Machine<'s>,
        turns: &mut Vec<Turn>,
        states: &States,
        round: &[u32],
    ) -> Result<bool, AllocError>
        requires plan { IsPlan self.now }
        requires some { 0 < length round.now }
        requires at { (all : List (List TheEvent)) × AreOf self.now all states.now ×
            HasTaken self.now turns.old.items (get_or all (get_or round.now 0 0) [])
            machine.old }
        ensures { IfOk result (λ b. IsTrue b →
            GoRound self.now.script.now self.now.limit (length round.now) turns.new.items) }
    {
        for place in 0..round.len() {
            let number = state_after(round, place);
            if !self.go_on(alloc, machine, turns, states, number)? {
                return Ok(false);
            }
        }
        Ok(true)
    }

    /// Adds those turns that lead once round to these, which lead to the first state of the round.
    /// False where the machine does not come round.
    fn add_round(
        &self,
        alloc: Global,
        turns: &mut Vec<Turn>,
        states: &States,
        round: &[u32],
    ) -> Result<bool, Stop>
        requires plan { IsPlan self.now }
        requires some { 0 < length round.now }
        requires at { (all : List (List TheEvent)) × AreOf self.now all states.now ×
            (get_or round.now 0 0 < length all) ×
            Lead self.now.script.now turns.old.items [] (get_or all (get_or round.now 0 0) []) }
        ensures { IfOk result (λ b. IsTrue b →
            GoRound self.now.script.now self.now.limit (length round.now) turns.new.items) }
    {
        let mut machine = self.machine_at(alloc, states, &Stations::new(alloc), round[0])?;
        let is_round = self.go_round(alloc, &mut machine, turns, states, round);
        drop(machine);
        Ok(is_round?)
    }

    /// The turns that lead to the first state of the round and once round it.
    fn turns_of(
        &self,
        alloc: Global,
        states: &States,
        round: &[u32],
    ) -> Result<Option<Vec<Turn>>, Stop>
        requires plan { IsPlan self.now }
        requires some { 0 < length round.now }
        requires at { (all : List (List TheEvent)) × AreOf self.now all states.now ×
            (get_or round.now 0 0 < length all) }
        ensures { IfOk result (λ o. IfSome o (λ turns.
            GoRound self.now.script.now self.now.limit (length round.now) turns.items)) }
    {
        let mut turns = states.turns_to(alloc, round[0])?;
        if self.add_round(alloc, &mut turns, states, round)? {
            Ok(Some(turns))
        } else {
            Ok(None)
        }
    }
}

/// The turns that lead from the state of no event to the first state of the round, and from there
/// once round it: by as many turns as the round has states, to a history that is like the one
/// there.
///
/// The states are those that a search of the script for these expectations found, and lead round.
/// `limit` is as for [`search`](crate::search): how many events there may be in all.
///
/// None where the turns would be more than `limit`. None too where no turn ahead comes to a state
/// that has the key of the next one: alike histories may have other keys, so that no clause says
/// that the turns are found. An error comes only where no memory is found.
pub fn turns_round(
    alloc: Global,
    script: &Script,
    expectations: &[Expectation],
    limit: u32,
    states: &States,
    round: &[u32],
) -> Result<Option<Vec<Turn>>, AllocError>
    requires fit { IsTrue (fits script.now) }
    requires named { expectations_fit script.now expectations.now ≡ true }
    requires turns { (1 ≤ limit) × (limit ≤ TURNS) }
    requires all { script.now.cpus * limit ≤ EVENTS }
    requires round { (all : List (List TheEvent)) ×
        AreStates script.now (flat_map watched_by expectations.now) all states.now ×
        AreRound script.now all round.now }
    ensures { IfOk result (λ o. IfSome o (λ turns.
        GoRound script.now limit (length round.now) turns.items)) }
{
    // no state is found here, so that it doesn't matter how many there may be
    let plan = Plan {
        script,
        limit,
        most: 1,
        expectations,
        watched: watch(alloc, expectations)?,
    };
    match plan.turns_of(alloc, states, round) {
        Ok(turns) => Ok(turns),
        Err(Stop::Turns | Stop::States) => Ok(None),
        Err(Stop::NoMemory) => Err(AllocError),
    }
}

/// Where turns lead once round, there are runs of every length: `always ends` fails.
pub fn rounds_are_endless()
    ensures { RoundsAreEndless }
{}
