//! Of which expectations no failure is known yet.
ghost use Rattle.std.specs.Prelude.{◌≡◌, ◌<◌, All, IfOk, None, Some, get_or, length, set, ℕ};
ghost use Rattle.nt_search.specs.declared.failures.Failure.{Failure as TheFailure};
ghost use Rattle.nt_findings.specs.Known.{AreJoined, AreNotedAt, AreUnknown, at_places};

use nt_expect::Expectation;
use nt_search::Failure;
use std::alloc::{AllocError, Global};

/// For each of so many expectations that no failure is known.
pub(crate) fn none_known(alloc: Global, count: usize) -> Result<Vec<Option<u32>>, AllocError>
    ensures count { IfOk result (λ v. length v.items ≡ count) }
    ensures none { IfOk result (λ v. (j : ℕ) → get_or v.items j None ≡ None) }
{
    let mut fails = Vec::with_capacity(alloc, count)?;
    for place in 0..count {
        let _place = place;
        fails.push(None)?;
    }
    Ok(fails)
}

/// The places of the expectations of which no failure is known.
pub(crate) fn places_of(alloc: Global, fails: &[Option<u32>]) -> Result<Vec<usize>, AllocError>
    ensures { IfOk result (λ v. AreUnknown fails.now v.items) }
{
    let mut places = Vec::new(alloc);
    for place in 0..fails.len() {
        if fails[place].is_none() {
            places.push(place)?;
        }
    }
    Ok(places)
}

/// The expectations at these places.
pub(crate) fn at_places(
    alloc: Global,
    expectations: &[Expectation],
    places: &[usize],
) -> Result<Vec<Expectation>, AllocError>
    requires { All (λ j. j < length expectations.now) places.now }
    ensures { IfOk result (λ v. v.items ≡ at_places expectations.now places.now) }
{
    let mut some = Vec::with_capacity(alloc, places.len())?;
    for index in 0..places.len() {
        let place = places[index];
        some.push(expectations[place])?;
    }
    Ok(some)
}

/// Notes where the expectation at this place fails, if it does.
fn note_one(place: usize, failure: Option<Failure>, fails: &mut Vec<Option<u32>>)
    requires { place < length fails.old.items }
    ensures kept { failure ≡ None → fails.new.items ≡ fails.old.items }
    ensures noted { (f : TheFailure) → failure ≡ Some f →
        fails.new.items ≡ set fails.old.items place (Some f.at) }
{
    if let Some(failure) = failure {
        fails[place] = Some(failure.at);
    }
}

/// Notes where the expectations at these places fail.
pub(crate) fn note(places: &[usize], failures: &[Option<Failure>], fails: &mut Vec<Option<u32>>)
    requires low { All (λ j. j < length fails.old.items) places.now }
    requires count { length failures.now ≡ length places.now }
    ensures { AreNotedAt places.now failures.now fails.old.items fails.new.items }
{
    for index in 0..places.len() {
        note_one(places[index], failures[index], fails);
    }
}

/// Whether some expectation is known to fail.
pub(crate) fn has_known(fails: &[Option<u32>]) -> bool {
    fails.iter().any(|at| at.is_some())
}

/// Notes where the expectation at this place fails, if no failure of it is known.
fn note_other(place: usize, at: Option<u32>, fails: &mut Vec<Option<u32>>)
    requires { place < length fails.old.items }
    ensures kept { (get_or fails.old.items place None ≡ None → ⊥) →
        fails.new.items ≡ fails.old.items }
    ensures noted { get_or fails.old.items place None ≡ None →
        fails.new.items ≡ set fails.old.items place at }
{
    if fails[place].is_none() {
        fails[place] = at;
    }
}

/// Notes where expectations fail of which no failure is known, as these say.
pub(crate) fn note_others(others: &[Option<u32>], fails: &mut Vec<Option<u32>>)
    requires { length others.now ≡ length fails.old.items }
    ensures { AreJoined others.now fails.old.items fails.new.items }
{
    for place in 0..others.len() {
        note_other(place, others[place], fails);
    }
}
