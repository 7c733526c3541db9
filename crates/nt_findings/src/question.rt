//! What is asked of a script, and the searches that answer it.
ghost use Rattle.std.specs.Option.{option_to_list};
ghost use Rattle.std.specs.Prelude.{◌≡◌, ◌<◌, ◌++◌, IfOk, IfSome, List, None, OnOk, Some, get_or};
ghost use Rattle.std.specs.Prelude.{◌≤◌, false, is_none, length, not, ℕ};
ghost use Rattle.nt_event.specs.declared.events.Event.{Event as TheEvent};
ghost use Rattle.nt_event.specs.declared.scripts.Script.{Script as TheScript};
ghost use Rattle.nt_expect.specs.declared.expectations.Expectation.{Expectation as Expected};
ghost use Rattle.nt_expect.specs.declared.expectations.Expectation.TheVariants.{AlwaysEnds};
ghost use Rattle.nt_search.specs.Ends.{TellsOfEnds, is_whole};
ghost use Rattle.nt_search.specs.Failures.{AreNoted, IsFailure};
ghost use Rattle.nt_search.specs.Searches.{IsShownIn};
ghost use Rattle.nt_search.specs.Ways.{AreWays};
ghost use Rattle.nt_findings.specs.Known.{AreKnown, at_places};
ghost use Rattle.nt_findings.specs.Questions.{AreOpen, IsFinished, IsQuestion, IsShownFor};
ghost use Rattle.nt_findings.specs.Verdicts.{IsSaid, cut_by};
ghost use Rattle.nt_findings.specs.Ways.{IsShownBy};

use crate::answering::{count_within, cut_by, is_whole, of_ends};
use crate::unknown::{at_places, has_known, none_known, note, note_others, places_of};
use nt_ask::{Cut, Verdict};
use nt_event::{Script, Turn};
use nt_expect::Expectation;
use nt_search::{Failure, Found, Hunted, Searched, States, hunt, search};
use std::alloc::{AllocError, Global};

/// The hunts: with at most 0, 1 and 2 preemptions.
const HUNTS: u8 = 3;

/// How many states a hunt may find. What is not found soon is found by the search of all states.
const HUNT_STATES: u32 = 10_000;

/// How many states the first search may find. Where there are no more, and no expectation fails,
/// hunts would take longer than the search.
const FEW: u32 = 10_000;

/// What is asked of a script.
#[derive(Clone, Copy)]
pub(crate) struct Question<'a> {
    pub(crate) script: &'a Script,
    pub(crate) expectations: &'a [Expectation],
    /// How many events a processor may make on the way to a state.
    pub(crate) limit: u32,
    /// How many states each search may find.
    pub(crate) most: u32,
}

/// The expectations of which no failure is known yet.
#[derive(Drop)]
pub(crate) struct Open {
    /// Their places among all.
    pub(crate) places: Vec<usize>,
    pub(crate) expectations: Vec<Expectation>,
}

/// Turns that show that an expectation fails.
#[derive(Drop, Debug)]
pub struct Shown {
    /// They lead to where it shows: by the event of the last one, or where all is quiet behind it.
    pub turns: Vec<Turn>,
    /// The number of the event that shows it, from 0, or of all events where all is quiet.
    pub at: u32,
}

/// What a hunt leaves.
#[derive(Drop)]
struct Step {
    /// Turns that show it of the expectation that is wanted.
    shown: Option<Shown>,
    /// The hunt ended early: the next one would end no later.
    is_cut: bool,
}

/// What the search of all states leaves.
#[derive(Drop)]
pub(crate) struct Finished {
    pub(crate) states: u32,
    pub(crate) edges: u64,
    /// All states were searched.
    pub(crate) is_whole: bool,
    /// Why not, where they were not.
    pub(crate) cut: Option<Cut>,
    /// What is said of `always ends`.
    pub(crate) ends: Verdict,
    /// Turns that show it of the expectation that is wanted.
    pub(crate) shown: Option<Shown>,
}

impl Finished {
    /// The same, with these turns in place of its own.
    fn with_turns(self, shown: Shown) -> Finished
        ensures { result ≡ record self { shown = Some shown } }
    {
        Finished {
            states: self.states,
            edges: self.edges,
            is_whole: self.is_whole,
            cut: self.cut,
            ends: self.ends,
            shown: Some(shown),
        }
    }
}

/// The failure that was noted of the expectation at this place.
fn failure_at(places: &[usize], failures: &[Option<Failure>], wanted: usize) -> Option<Failure>
    requires { length failures.now ≡ length places.now }
    ensures { IfSome result (λ f. (k : ℕ) × (k < length places.now) ×
        (get_or places.now k 0 ≡ wanted) × (get_or failures.now k None ≡ Some f)) }
{
    for index in 0..places.len() {
        if places[index] == wanted {
            return failures[index];
        }
    }
    None
}

/// Adds the turn, if there is one.
fn add_turn(turns: &mut Vec<Turn>, turn: Option<Turn>) -> Result<(), AllocError>
    ensures { OnOk result (turns.new.items ≡ turns.old.items ++ option_to_list turn) }
{
    match turn {
        Some(turn) => {
            turns.push(turn)?;
            Ok(())
        }
        None => Ok(()),
    }
}

/// The turns that show it where a failure shows.
fn shown_by(alloc: Global, states: &States, failure: Failure) -> Result<Shown, AllocError>
    requires state { failure.state < length states.now.ways }
    requires ways { (s : TheScript) × (all : List (List TheEvent)) × AreWays s all states.now.ways }
    ensures { IfOk result (λ y. (s : TheScript) (all : List (List TheEvent)) (x : Expected) →
        AreWays s all states.now.ways → IsFailure s all x failure →
        IsShownBy s x y.turns.items y.at) }
{
    let mut turns = states.turns_to(alloc, failure.state)?;
    add_turn(&mut turns, failure.turn)?;
    Ok(Shown {
        turns,
        at: failure.at,
    })
}

impl<'a> Question<'a> {
    /// The expectations of which no failure is known.
    pub(crate) fn open(&self, alloc: Global, fails: &[Option<u32>]) -> Result<Open, AllocError>
        requires question { IsQuestion self.now }
        requires count { length fails.now ≡ length self.now.expectations.now }
        ensures { IfOk result (AreOpen self.now fails.now) }
    {
        let places = places_of(alloc, fails)?;
        let expectations = at_places(alloc, self.expectations, places.as_slice())?;
        Ok(Open {
            places,
            expectations,
        })
    }

    /// The turns that show it of the expectation at this place, where a search found its failure.
    fn shown_at(
        &self,
        alloc: Global,
        places: &[usize],
        found: &Found,
        place: usize,
    ) -> Result<Option<Shown>, AllocError>
        requires { (all : List (List TheEvent)) ×
            AreWays self.now.script.now all found.now.states.ways ×
            AreNoted self.now.script.now all (at_places self.now.expectations.now places.now)
            found.now.failures.items }
        ensures { IfOk result (IsShownFor self.now (Some place)) }
    {
        match failure_at(places, found.failures.as_slice(), place) {
            Some(failure) => {
                let shown = shown_by(alloc, &found.states, failure)?;
                Ok(Some(shown))
            }
            None => Ok(None),
        }
    }

    /// The turns that show it of the expectation that is wanted.
    fn shown_in(
        &self,
        alloc: Global,
        places: &[usize],
        found: &Found,
        wanted: Option<usize>,
    ) -> Result<Option<Shown>, AllocError>
        requires { (all : List (List TheEvent)) ×
            AreWays self.now.script.now all found.now.states.ways ×
            AreNoted self.now.script.now all (at_places self.now.expectations.now places.now)
            found.now.failures.items }
        ensures { IfOk result (IsShownFor self.now wanted) }
    {
        match wanted {
            Some(place) => self.shown_at(alloc, places, found, place),
            None => Ok(None),
        }
    }

    /// What a hunt leaves, by what it found of the expectations at these places.
    fn step_of(
        &self,
        alloc: Global,
        places: &[usize],
        hunted: &Hunted,
        wanted: Option<usize>,
    ) -> Result<Step, AllocError>
        requires { (all : List (List TheEvent)) ×
            AreWays self.now.script.now all hunted.now.found.states.ways ×
            AreNoted self.now.script.now all (at_places self.now.expectations.now places.now)
            hunted.now.found.failures.items }
        ensures { IfOk result (λ step. IsShownFor self.now wanted step.shown) }
    {
        Ok(Step {
            shown: self.shown_in(alloc, places, &hunted.found, wanted)?,
            is_cut: hunted.is_cut,
        })
    }

    /// Hunts for failures of those that are open, and notes them. What was hunted is owned here
    /// alone.
    fn hunt_open(
        &self,
        alloc: Global,
        left: &Open,
        fails: &mut Vec<Option<u32>>,
        preemptions: u8,
        wanted: Option<usize>,
    ) -> Result<Step, AllocError>
        requires question { IsQuestion self.now }
        requires known { AreKnown self.now.script.now self.now.expectations.now fails.old.items }
        requires left { AreOpen self.now fails.old.items left.now }
        ensures known { AreKnown self.now.script.now self.now.expectations.now fails.new.items }
        ensures shown { IfOk result (λ step. IsShownFor self.now wanted step.shown) }
    {
        let expectations = left.expectations.as_slice();
        let places = left.places.as_slice();
        let most = self.most.min(HUNT_STATES);
        let hunted = hunt(
            alloc,
            self.script,
            expectations,
            self.limit,
            most,
            preemptions,
        )?;
        note(places, hunted.found.failures.as_slice(), fails);
        let step = self.step_of(alloc, places, &hunted, wanted);
        drop(hunted);
        step
    }

    /// Hunts for failures of those of which none is known, and notes them.
    fn hunt_once(
        &self,
        alloc: Global,
        fails: &mut Vec<Option<u32>>,
        preemptions: u8,
        wanted: Option<usize>,
    ) -> Result<Step, AllocError>
        requires question { IsQuestion self.now }
        requires known { AreKnown self.now.script.now self.now.expectations.now fails.old.items }
        ensures known { AreKnown self.now.script.now self.now.expectations.now fails.new.items }
        ensures shown { IfOk result (λ step. IsShownFor self.now wanted step.shown) }
    {
        let left = self.open(alloc, fails.as_slice())?;
        self.hunt_open(alloc, &left, fails, preemptions, wanted)
    }

    /// Hunts with ever more preemptions, and notes the failures. It ends where turns are found that
    /// show it of the expectation that is wanted. On one processor there are no preemptions, and
    /// the search of all states is as good.
    pub(crate) fn hunt(
        &self,
        alloc: Global,
        fails: &mut Vec<Option<u32>>,
        wanted: Option<usize>,
    ) -> Result<Option<Shown>, AllocError>
        requires question { IsQuestion self.now }
        requires known { AreKnown self.now.script.now self.now.expectations.now fails.old.items }
        ensures known { AreKnown self.now.script.now self.now.expectations.now fails.new.items }
        ensures shown { IfOk result (IsShownFor self.now wanted) }
    {
        if self.script.cpus < 2 {
            return Ok(None);
        }
        for preemptions in 0..HUNTS {
            let step = self.hunt_once(alloc, fails, preemptions, wanted)?;
            if step.shown.is_some() || step.is_cut {
                return Ok(step.shown);
            }
        }
        Ok(None)
    }

    /// What the search of all states leaves, by what it found of the expectations at these places.
    fn finished_by(
        &self,
        alloc: Global,
        places: &[usize],
        searched: &Searched,
        wanted: Option<usize>,
    ) -> Result<Finished, AllocError>
        requires shown { IsShownIn self.now.script.now
            (at_places self.now.expectations.now places.now) self.now.limit self.now.most
            searched.now }
        requires ends { TellsOfEnds self.now.script.now searched.now.end }
        ensures whole { IfOk result (λ f. f.is_whole ≡ is_whole searched.now.end) }
        ensures cut { IfOk result (λ f. f.cut ≡ cut_by searched.now.end) }
        ensures states { IfOk result (λ f. f.states ≡ length searched.now.found.states.ways) }
        ensures ends { IfOk result
            (λ f. IsSaid self.now.script.now (not f.is_whole) AlwaysEnds f.ends) }
        ensures shown { IfOk result (λ f. IsShownFor self.now wanted f.shown) }
    {
        Ok(Finished {
            states: count_within(searched.found.states.len(), self.most),
            edges: searched.found.edges,
            is_whole: is_whole(&searched.end),
            cut: cut_by(&searched.end),
            ends: of_ends(alloc, searched)?,
            shown: self.shown_in(alloc, places, &searched.found, wanted)?,
        })
    }

    /// Searches all states for failures of those that are open, and notes them. What was found is
    /// owned here alone.
    fn search_open(
        &self,
        alloc: Global,
        left: &Open,
        fails: &mut Vec<Option<u32>>,
        wanted: Option<usize>,
    ) -> Result<Finished, AllocError>
        requires question { IsQuestion self.now }
        requires known { AreKnown self.now.script.now self.now.expectations.now fails.old.items }
        requires left { AreOpen self.now fails.old.items left.now }
        ensures known { AreKnown self.now.script.now self.now.expectations.now fails.new.items }
        ensures finished { IfOk result (IsFinished self.now wanted fails.new.items) }
    {
        let expectations = left.expectations.as_slice();
        let places = left.places.as_slice();
        let searched = search(alloc, self.script, expectations, self.limit, self.most)?;
        note(places, searched.found.failures.as_slice(), fails);
        let finished = self.finished_by(alloc, places, &searched, wanted);
        drop(searched);
        finished
    }

    /// Searches all states for failures of those of which none is known, and notes them.
    pub(crate) fn finish(
        &self,
        alloc: Global,
        fails: &mut Vec<Option<u32>>,
        wanted: Option<usize>,
    ) -> Result<Finished, AllocError>
        requires question { IsQuestion self.now }
        requires known { AreKnown self.now.script.now self.now.expectations.now fails.old.items }
        ensures known { AreKnown self.now.script.now self.now.expectations.now fails.new.items }
        ensures finished { IfOk result (IsFinished self.now wanted fails.new.items) }
    {
        let left = self.open(alloc, fails.as_slice())?;
        self.search_open(alloc, &left, fails, wanted)
    }

    /// The same of searches that find few states.
    pub(crate) fn few(&self) -> Question<'a>
        ensures same { result ≡ record self.now { most = result.most } }
        ensures less { result.most ≤ self.now.most }
        ensures question { IsQuestion self.now → IsQuestion result }
    {
        Question {
            script: self.script,
            expectations: self.expectations,
            limit: self.limit,
            most: self.most.min(FEW),
        }
    }

    /// Hunts where the search of few states, which found all and left this, knows a failure of what
    /// is wanted, or of some expectation: runs with few preemptions are easier to read.
    fn hunt_again(
        &self,
        alloc: Global,
        fails: &mut Vec<Option<u32>>,
        wanted: Option<usize>,
        few: &Finished,
        known: &[Option<u32>],
    ) -> Result<Option<Shown>, AllocError>
        requires question { IsQuestion self.now }
        requires known { AreKnown self.now.script.now self.now.expectations.now fails.old.items }
        ensures known { AreKnown self.now.script.now self.now.expectations.now fails.new.items }
        ensures shown { IfOk result (IsShownFor self.now wanted) }
    {
        let is_shown = few.shown.is_some();
        if is_shown || (wanted.is_none() && has_known(known)) {
            self.hunt(alloc, fails, wanted)
        } else {
            Ok(None)
        }
    }

    /// What the search of few states left, which found all. What is known by hunts goes before what
    /// it knows.
    fn settle_few(
        &self,
        alloc: Global,
        fails: &mut Vec<Option<u32>>,
        wanted: Option<usize>,
        few: Finished,
        known: &[Option<u32>],
    ) -> Result<Finished, AllocError>
        requires question { IsQuestion self.now }
        requires known { AreKnown self.now.script.now self.now.expectations.now fails.old.items }
        requires few { AreKnown self.now.script.now self.now.expectations.now known.now }
        requires finished { IsFinished self.now wanted known.now few }
        ensures known { AreKnown self.now.script.now self.now.expectations.now fails.new.items }
        ensures finished { IfOk result (IsFinished self.now wanted fails.new.items) }
    {
        let shown = self.hunt_again(alloc, fails, wanted, &few, known)?;
        note_others(known, fails);
        match shown {
            Some(shown) => Ok(few.with_turns(shown)),
            None => Ok(few),
        }
    }

    /// What hunts leave, and the search of all states. The search of few left this, and found not
    /// all.
    fn settle_all(
        &self,
        alloc: Global,
        fails: &mut Vec<Option<u32>>,
        wanted: Option<usize>,
        few: Finished,
    ) -> Result<Finished, AllocError>
        requires question { IsQuestion self.now }
        requires known { AreKnown self.now.script.now self.now.expectations.now fails.old.items }
        requires whole { few.is_whole ≡ is_none few.cut }
        requires part { few.is_whole ≡ false }
        requires ends { IsSaid self.now.script.now (not few.is_whole) AlwaysEnds few.ends }
        ensures known { AreKnown self.now.script.now self.now.expectations.now fails.new.items }
        ensures finished { IfOk result (IsFinished self.now wanted fails.new.items) }
    {
        match self.hunt(alloc, fails, wanted)? {
            Some(shown) => Ok(few.with_turns(shown)),
            None => self.finish(alloc, fails, wanted),
        }
    }

    /// Searches few states. Where these are not all, it hunts, and then searches all. Failures are
    /// noted.
    pub(crate) fn settle(
        &self,
        alloc: Global,
        fails: &mut Vec<Option<u32>>,
        wanted: Option<usize>,
    ) -> Result<Finished, AllocError>
        requires question { IsQuestion self.now }
        requires known { AreKnown self.now.script.now self.now.expectations.now fails.old.items }
        ensures known { AreKnown self.now.script.now self.now.expectations.now fails.new.items }
        ensures finished { IfOk result (IsFinished self.now wanted fails.new.items) }
    {
        let mut known = none_known(alloc, self.expectations.len())?;
        let few = self.few().finish(alloc, &mut known, wanted)?;
        if few.is_whole {
            self.settle_few(alloc, fails, wanted, few, known.as_slice())
        } else {
            self.settle_all(alloc, fails, wanted, few)
        }
    }
}
