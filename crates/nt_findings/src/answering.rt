//! What is said of expectations, by what is known of them.
ghost use Rattle.std.specs.Prelude.{All, Bool, List, None, false, get_or, length, not, ℕ, ◌<◌, ◌≡◌};
ghost use Rattle.std.specs.Prelude.{◌+◌, ◌≤◌, IfOk};
ghost use Rattle.nt_event.specs.declared.events.Event.{Event};
ghost use Rattle.nt_event.specs.declared.scripts.Script.{Script as TheScript};
ghost use Rattle.nt_expect.specs.declared.expectations.Expectation.{Expectation as Expected};
ghost use Rattle.nt_expect.specs.declared.expectations.Expectation.TheVariants.{AlwaysEnds, Never};
ghost use Rattle.nt_search.specs.Ends.{TellsOfEnds, is_whole};
ghost use Rattle.nt_search.specs.Searches.{IsShownIn};
ghost use Rattle.nt_search.specs.Ways.{AreWays};
ghost use Rattle.nt_alike.specs.Lists.{Among};
ghost use Rattle.nt_verdict.specs.Closed.{watched_by};
ghost use Rattle.nt_verdict.specs.Fails.{Fails};
ghost use Rattle.nt_findings.specs.declared.spoken.Spoken.{Spoken as TheSpoken};
ghost use Rattle.nt_findings.specs.Spoken.{IsSpoken};
ghost use Rattle.nt_findings.specs.Verdicts.{AreSaid, IsSaid, TellsOf, TellsOfAll, cut_by};

use crate::spoken::Spoken;
use nt_ask::{Cut, Verdict};
use nt_expect::Expectation;
use nt_rounds::Depths;
use nt_search::{End, Searched, States, Stop};
use std::alloc::{AllocError, Global};

/// Whether the search found all states.
pub(crate) fn is_whole(end: &End) -> bool
    ensures { result ≡ is_whole end.now }
{
    match end {
        End::Whole(_) => true,
        End::Stopped(_) => false,
    }
}

/// The first of the depths: how far the state of no event can go.
fn first_of(depths: &[u32]) -> u32
    ensures { result ≡ get_or depths.now 0 0 }
{
    match depths.first() {
        Some(depth) => *depth,
        None => 0,
    }
}

/// Why a search that ended so was cut.
pub(crate) fn cut_by(end: &End) -> Option<Cut>
    ensures { result ≡ cut_by end.now }
{
    match end {
        End::Whole(_) => None,
        End::Stopped(Stop::States) => Some(Cut::States),
        End::Stopped(Stop::Turns) => Some(Cut::Turns),
        End::Stopped(Stop::NoMemory) => Some(Cut::Memory),
    }
}

/// A count of no more than this as a number of 32 bits.
pub(crate) fn count_within(len: usize, most: u32) -> u32
    requires { len ≤ most }
    ensures { result ≡ len }
{
    let _most = most;
    len as u32
}

/// A count as a number of 32 bits, or the greatest one.
fn count_of(len: usize) -> u32 {
    match u32::try_from(len) {
        Ok(count) => count,
        Err(_) => u32::MAX,
    }
}

/// How many events lead to the first state of a round and once round it.
fn events_round(alloc: Global, states: &States, round: &[u32]) -> Result<u32, AllocError>
    requires some { 0 < length round.now }
    requires low { get_or round.now 0 0 < length states.now.ways }
    requires ways { (s : TheScript) × (all : List (List Event)) × AreWays s all states.now.ways }
{
    let way = states.turns_to(alloc, round[0])?;
    Ok(count_of(way.len()).saturating_add(count_of(round.len())))
}

/// What is said of `always ends`.
pub(crate) fn of_ends(alloc: Global, searched: &Searched) -> Result<Verdict, AllocError>
    requires { (s : TheScript) × (xs : List Expected) × (limit : ℕ) × (most : ℕ) ×
        IsShownIn s xs limit most searched.now }
    ensures { IfOk result (λ v. (s : TheScript) → TellsOfEnds s searched.now.end →
        IsSaid s (not (is_whole searched.now.end)) AlwaysEnds v) }
{
    match &searched.end {
        End::Whole(Depths::Finite(depths)) => Ok(Verdict::HoldsWithin(first_of(depths.as_slice()))),
        End::Whole(Depths::Round(round)) => {
            let number = events_round(alloc, &searched.found.states, round.as_slice())?;
            Ok(Verdict::FailsAt(number))
        }
        End::Stopped(_) => Ok(Verdict::Unknown),
    }
}

/// What is said of an expectation, by the number at which it is known to fail, by whether all
/// states were searched, and by what is said of `always ends`.
fn verdict_of(expectation: &Expectation, fails: Option<u32>, whole: bool, ends: &Verdict) -> Verdict
    ensures { (s : TheScript) → TellsOf s whole expectation.now fails →
        IsSaid s (not whole) AlwaysEnds ends.now → IsSaid s (not whole) expectation.now result }
{
    if let Some(at) = fails {
        return Verdict::FailsAt(at);
    }
    if let Expectation::AlwaysEnds = expectation {
        return *ends;
    }
    if whole {
        Verdict::Holds
    } else {
        Verdict::Unknown
    }
}

/// What is said of each expectation, in their order.
pub(crate) fn verdicts_of(
    alloc: Global,
    expectations: &[Expectation],
    fails: &[Option<u32>],
    whole: bool,
    ends: &Verdict,
) -> Result<Vec<Verdict>, AllocError>
    requires { length expectations.now ≤ length fails.now }
    ensures { IfOk result (λ vs. (s : TheScript) →
        TellsOfAll s whole expectations.now fails.now →
        IsSaid s (not whole) AlwaysEnds ends.now →
        AreSaid s (not whole) expectations.now vs.items) }
{
    let mut verdicts = Vec::with_capacity(alloc, expectations.len())?;
    for place in 0..expectations.len() {
        let verdict = verdict_of(&expectations[place], fails[place], whole, ends);
        verdicts.push(verdict)?;
    }
    Ok(verdicts)
}

/// Says of an expectation that holds that this event never comes.
fn without(verdict: Verdict, spoken: &Spoken, fails: Option<u32>) -> Verdict
    ensures { (s : TheScript) (is_cut : Bool) (x : Expected) → IsSaid s is_cut x verdict →
        (fails ≡ None → is_cut ≡ false → Fails s (Never spoken.now.event) → ⊥) →
        Among (λ y. spoken.now.event ≡ y) (watched_by x) → IsSaid s is_cut x result }
{
    match verdict {
        Verdict::Holds if fails.is_none() => Verdict::HoldsWithout(spoken.event),
        Verdict::Holds
        | Verdict::HoldsWithout(_)
        | Verdict::HoldsWithin(_)
        | Verdict::FailsAt(_)
        | Verdict::Unknown => verdict,
    }
}

/// Says so of each expectation that holds of the first event it speaks of that never comes. What is
/// known of the events begins at this place.
pub(crate) fn say_without(
    verdicts: &mut Vec<Verdict>,
    spoken: &[Spoken],
    fails: &[Option<u32>],
    first: usize,
)
    requires low { All (λ y. y.of < length verdicts.old.items) spoken.now }
    requires count { first + length spoken.now ≤ length fails.now }
    ensures { (s : TheScript) (is_cut : Bool) (xs : List Expected) →
        AreSaid s is_cut xs verdicts.old.items → All (IsSpoken xs) spoken.now →
        ((k : ℕ) (d : TheSpoken) → k < length spoken.now →
        get_or fails.now (first + k) None ≡ None → is_cut ≡ false →
        Fails s (Never (get_or spoken.now k d).event) → ⊥) →
        AreSaid s is_cut xs verdicts.new.items }
{
    for index in 0..spoken.len() {
        let one = &spoken[index];
        let place = one.of;
        let verdict = without(verdicts[place], one, fails[first + index]);
        verdicts[place] = verdict;
    }
}
