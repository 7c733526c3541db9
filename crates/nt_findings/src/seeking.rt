//! What shows that one expectation fails.
ghost use Rattle.std.specs.Prelude.{◌*◌, ◌<◌, ◌≡◌, ◌≤◌, IfOk, IsTrue, List, None, Option, Some};
ghost use Rattle.std.specs.Prelude.{get_or};
ghost use Rattle.std.specs.Prelude.{length, true, ℕ};
ghost use Rattle.nt_event.specs.Script.{fits};
ghost use Rattle.nt_expect.specs.declared.expectations.Expectation.TheVariants.{AlwaysEnds};
ghost use Rattle.nt_expect.specs.Expectations.{expectations_fit};
ghost use Rattle.nt_search.specs.Ends.{TellsOfEnds};
ghost use Rattle.nt_search.specs.Searches.{IsShownIn};
ghost use Rattle.nt_findings.specs.declared.question.Question.{Question as TheQuestion};
ghost use Rattle.nt_findings.specs.Questions.{IsFinished, IsQuestion, IsSought};

use crate::question::{Finished, Open, Question, Shown};
use crate::spoken::{spoken_of, with_events};
use crate::unknown::none_known;
use nt_event::limits::{EVENTS, TURNS};
use nt_event::{Script, Turn};
use nt_expect::Expectation;
use nt_rounds::Depths;
use nt_search::{End, Searched, search, turns_round};
use std::alloc::{AllocError, Global};

/// What is found of one expectation.
#[derive(Drop, Debug)]
pub enum Sought {
    /// These turns show that it fails.
    Fails(Shown),
    /// Runs need not end: these turns lead somewhere, and once round from there.
    GoesOn(Vec<Turn>),
    /// It fails in no run.
    Holds,
    /// Nothing is known.
    Unknown,
}

/// What is found of the expectation that was wanted, by what is known of it at last.
fn sought_by(finished: Finished, fails: Option<u32>) -> Sought
    ensures { (q : TheQuestion) (place : ℕ) (all : List (Option ℕ)) →
        IsFinished q (Some place) all finished → place < length q.expectations.now →
        get_or all place None ≡ fails →
        (get_or q.expectations.now place AlwaysEnds ≡ AlwaysEnds → ⊥) →
        IsSought q.script.now (get_or q.expectations.now place AlwaysEnds) result }
{
    match finished.shown {
        Some(shown) => Sought::Fails(shown),
        None => {
            if finished.is_whole && fails.is_none() {
                Sought::Holds
            } else {
                Sought::Unknown
            }
        }
    }
}

impl<'a> Question<'a> {
    /// What is found of the expectation at this place, which is not `always ends`.
    fn seek_failure(&self, alloc: Global, place: usize) -> Result<Sought, AllocError>
        requires question { IsQuestion self.now }
        requires place { place < length self.now.expectations.now }
        requires other { get_or self.now.expectations.now place AlwaysEnds ≡ AlwaysEnds → ⊥ }
        ensures { IfOk result
            (IsSought self.now.script.now (get_or self.now.expectations.now place AlwaysEnds)) }
    {
        let mut fails = none_known(alloc, self.expectations.len())?;
        let finished = self.settle(alloc, &mut fails, Some(place))?;
        Ok(sought_by(finished, fails[place]))
    }

    /// What a search of all states, for those that were open, says of `always ends`.
    fn goes_on(&self, alloc: Global, left: &Open, searched: &Searched) -> Result<Sought, AllocError>
        requires question { IsQuestion self.now }
        requires shown { IsShownIn self.now.script.now left.now.expectations.items self.now.limit
            self.now.most searched.now }
        requires ends { TellsOfEnds self.now.script.now searched.now.end }
        requires named { expectations_fit self.now.script.now left.now.expectations.items ≡ true }
        ensures { IfOk result (IsSought self.now.script.now AlwaysEnds) }
    {
        let End::Whole(depths) = &searched.end else {
            return Ok(Sought::Unknown);
        };
        let Depths::Round(round) = depths else {
            return Ok(Sought::Holds);
        };
        let turns = turns_round(
            alloc,
            self.script,
            left.expectations.as_slice(),
            self.limit,
            &searched.found.states,
            round.as_slice(),
        )?;
        match turns {
            Some(turns) => Ok(Sought::GoesOn(turns)),
            None => Ok(Sought::Unknown),
        }
    }

    /// What the search of all states, for those that are open, says of `always ends`. What was
    /// found is owned here alone.
    fn search_rounds(&self, alloc: Global, left: &Open) -> Result<Sought, AllocError>
        requires question { IsQuestion self.now }
        requires named { expectations_fit self.now.script.now left.now.expectations.items ≡ true }
        ensures { IfOk result (IsSought self.now.script.now AlwaysEnds) }
    {
        let expectations = left.expectations.as_slice();
        let searched = search(alloc, self.script, expectations, self.limit, self.most)?;
        let sought = self.goes_on(alloc, left, &searched);
        drop(searched);
        sought
    }

    /// What is found of `always ends`, where a failure is known of some of the others.
    fn seek_round_of(&self, alloc: Global, fails: &[Option<u32>]) -> Result<Sought, AllocError>
        requires question { IsQuestion self.now }
        requires count { length fails.now ≡ length self.now.expectations.now }
        ensures { IfOk result (IsSought self.now.script.now AlwaysEnds) }
    {
        let left = self.open(alloc, fails)?;
        self.search_rounds(alloc, &left)
    }

    /// What is found of `always ends`.
    fn seek_round(&self, alloc: Global) -> Result<Sought, AllocError>
        requires question { IsQuestion self.now }
        ensures { IfOk result (IsSought self.now.script.now AlwaysEnds) }
    {
        let mut fails = none_known(alloc, self.expectations.len())?;
        match self.few().seek_round_of(alloc, fails.as_slice())? {
            Sought::Unknown => {
                let _none = self.hunt(alloc, &mut fails, None)?;
                self.seek_round_of(alloc, fails.as_slice())
            }
            sought => Ok(sought),
        }
    }

    /// What is found of the expectation at this place.
    fn seek(&self, alloc: Global, place: usize) -> Result<Sought, AllocError>
        requires question { IsQuestion self.now }
        requires place { place < length self.now.expectations.now }
        ensures { IfOk result
            (IsSought self.now.script.now (get_or self.now.expectations.now place AlwaysEnds)) }
    {
        if let Expectation::AlwaysEnds = self.expectations[place] {
            self.seek_round(alloc)
        } else {
            self.seek_failure(alloc, place)
        }
    }
}

/// What shows that the expectation at this place fails, by the same searches as `ask` makes of
/// these expectations.
///
/// The script and the expectations fit. On the way to a state each processor makes fewer events
/// than `limit`, which is 1 to 20,000, and at most 160,000 in all processors together; each search
/// finds at most `most` states. An error is want of memory; where it is wanting in a search, that
/// search is cut.
pub fn seek(
    alloc: Global,
    script: &Script,
    expectations: &[Expectation],
    place: usize,
    limit: u32,
    most: u32,
) -> Result<Sought, AllocError>
    requires fit { IsTrue (fits script.now) }
    requires named { expectations_fit script.now expectations.now ≡ true }
    requires turns { (1 ≤ limit) × (limit ≤ TURNS) }
    requires all { script.now.cpus * limit ≤ EVENTS }
    requires most { 1 ≤ most }
    requires place { place < length expectations.now }
    ensures { IfOk result (IsSought script.now (get_or expectations.now place AlwaysEnds)) }
{
    let spoken = spoken_of(alloc, expectations)?;
    let all = with_events(alloc, expectations, spoken.as_slice())?;
    let question = Question {
        script,
        expectations: all.as_slice(),
        limit,
        most,
    };
    let sought = question.seek(alloc, place)?;
    Ok(sought)
}
