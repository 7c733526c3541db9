//! The events that expectations speak of, but those of which they say that they never come.
ghost use Rattle.std.specs.Prelude.{◌≡◌, ◌<◌, ◌++◌, All, IfOk, IfSome, OnOk, get_or, length, map};
ghost use Rattle.nt_alike.specs.Lists.{Among};
ghost use Rattle.nt_expect.specs.declared.expectations.Expectation.TheVariants.{AlwaysEnds, Never};
ghost use Rattle.nt_verdict.specs.Closed.{watched_by};
ghost use Rattle.nt_findings.specs.Spoken.{IsSpoken, with_events};

use nt_expect::{Expectation, Watched};
use std::alloc::{AllocError, Global};

/// An event that an expectation speaks of.
#[derive(Clone, Copy, Debug)]
pub struct Spoken {
    /// The place of the expectation, from 0.
    pub of: usize,
    pub event: Watched,
}

/// The first event that the expectation speaks of, but not one of which it says that it never
/// comes.
fn first_of(expectation: &Expectation) -> Option<Watched>
    ensures { IfSome result (λ x. Among (λ z. x ≡ z) (watched_by expectation.now)) }
{
    match expectation {
        Expectation::NeverTwice(x)
        | Expectation::NeverAbove(x, _)
        | Expectation::NeverOn(x, _)
        | Expectation::NeverAfter(x, _)
        | Expectation::NeverBefore(x, _)
        | Expectation::Always(x) => Some(*x),
        Expectation::Never(_)
        | Expectation::NeverWith(_, _)
        | Expectation::NeverWaitsDpc(_)
        | Expectation::NeverWaitsApc(_)
        | Expectation::NeverBlocked(_)
        | Expectation::NeverSpins(_)
        | Expectation::AlwaysEnds => None,
    }
}

/// The second one.
fn second_of(expectation: &Expectation) -> Option<Watched>
    ensures { IfSome result (λ x. Among (λ z. x ≡ z) (watched_by expectation.now)) }
{
    match expectation {
        Expectation::NeverAfter(_, y) | Expectation::NeverBefore(_, y) => Some(*y),
        Expectation::Never(_)
        | Expectation::NeverTwice(_)
        | Expectation::NeverAbove(_, _)
        | Expectation::NeverOn(_, _)
        | Expectation::Always(_)
        | Expectation::NeverWith(_, _)
        | Expectation::NeverWaitsDpc(_)
        | Expectation::NeverWaitsApc(_)
        | Expectation::NeverBlocked(_)
        | Expectation::NeverSpins(_)
        | Expectation::AlwaysEnds => None,
    }
}

/// Adds the event, if there is one.
fn put_event(
    spoken: &mut Vec<Spoken>,
    of: usize,
    event: Option<Watched>,
    expectations: &[Expectation],
) -> Result<(), AllocError>
    requires old { All (IsSpoken expectations.now) spoken.old.items }
    requires of { of < length expectations.now }
    requires event { IfSome event
        (λ x. Among (λ z. x ≡ z) (watched_by (get_or expectations.now of AlwaysEnds))) }
    ensures { OnOk result (All (IsSpoken expectations.now) spoken.new.items) }
{
    let _expectations = expectations;
    match event {
        Some(event) => {
            spoken.push(Spoken { of, event })?;
            Ok(())
        }
        None => Ok(()),
    }
}

/// The events that these expectations speak of, in their order.
pub(crate) fn spoken_of(
    alloc: Global,
    expectations: &[Expectation],
) -> Result<Vec<Spoken>, AllocError>
    ensures { IfOk result (λ v. All (IsSpoken expectations.now) v.items) }
{
    let mut spoken = Vec::new(alloc);
    for place in 0..expectations.len() {
        let expectation = &expectations[place];
        put_event(&mut spoken, place, first_of(expectation), expectations)?;
        put_event(&mut spoken, place, second_of(expectation), expectations)?;
    }
    Ok(spoken)
}

/// Adds these expectations.
fn put_all(all: &mut Vec<Expectation>, expectations: &[Expectation]) -> Result<(), AllocError>
    ensures { OnOk result (all.new.items ≡ all.old.items ++ expectations.now) }
{
    for index in 0..expectations.len() {
        all.push(expectations[index])?;
    }
    Ok(())
}

/// Adds that each of these events never comes.
fn put_events(all: &mut Vec<Expectation>, spoken: &[Spoken]) -> Result<(), AllocError>
    ensures { OnOk result (all.new.items
        ≡ all.old.items ++ map (λ y. Never y.event) spoken.now) }
{
    for index in 0..spoken.len() {
        all.push(Expectation::Never(spoken[index].event))?;
    }
    Ok(())
}

/// These expectations, and behind them that each of these events never comes.
pub(crate) fn with_events(
    alloc: Global,
    expectations: &[Expectation],
    spoken: &[Spoken],
) -> Result<Vec<Expectation>, AllocError>
    ensures { IfOk result (λ v. v.items ≡ with_events expectations.now spoken.now) }
{
    let mut all = Vec::with_capacity(alloc, expectations.len())?;
    put_all(&mut all, expectations)?;
    put_events(&mut all, spoken)?;
    Ok(all)
}
