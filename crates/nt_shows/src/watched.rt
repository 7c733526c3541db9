//! The events that expectations watch for.
ghost use Rattle.std.specs.List.{flat_map};
ghost use Rattle.std.specs.Option.{option_to_list};
ghost use Rattle.std.specs.Prelude.{◌≡◌, ◌++◌, IfOk, OnOk, length};
ghost use Rattle.nt_verdict.specs.Closed.{watched_by};

use nt_expect::{Expectation, Watched};
use std::alloc::{AllocError, Global};

/// The events that the expectation watches for, at most two.
fn watched_by(expectation: &Expectation) -> [Option<Watched>; 2]
    ensures { flat_map option_to_list result ≡ watched_by expectation.now }
{
    match expectation {
        Expectation::Never(x)
        | Expectation::NeverTwice(x)
        | Expectation::NeverAbove(x, _)
        | Expectation::NeverOn(x, _)
        | Expectation::Always(x) => [Some(*x), None],
        Expectation::NeverAfter(x, y) | Expectation::NeverBefore(x, y) => [Some(*x), Some(*y)],
        Expectation::NeverWith(_, _)
        | Expectation::NeverWaitsDpc(_)
        | Expectation::NeverWaitsApc(_)
        | Expectation::NeverBlocked(_)
        | Expectation::NeverSpins(_)
        | Expectation::AlwaysEnds => [None, None],
    }
}

/// How many events the expectation watches for.
pub fn watched_count(expectation: &Expectation) -> usize
    ensures { result ≡ length (watched_by expectation.now) }
{
    match expectation {
        Expectation::Never(_)
        | Expectation::NeverTwice(_)
        | Expectation::NeverAbove(_, _)
        | Expectation::NeverOn(_, _)
        | Expectation::Always(_) => 1,
        Expectation::NeverAfter(_, _) | Expectation::NeverBefore(_, _) => 2,
        Expectation::NeverWith(_, _)
        | Expectation::NeverWaitsDpc(_)
        | Expectation::NeverWaitsApc(_)
        | Expectation::NeverBlocked(_)
        | Expectation::NeverSpins(_)
        | Expectation::AlwaysEnds => 0,
    }
}

/// Adds the events that the expectation watches for.
fn put_watched(all: &mut Vec<Watched>, expectation: &Expectation) -> Result<(), AllocError>
    ensures { OnOk result (all.new.items ≡ all.old.items ++ watched_by expectation.now) }
{
    let [first, second] = watched_by(expectation);
    if let Some(x) = first {
        all.push(x)?;
    }
    if let Some(x) = second {
        all.push(x)?;
    }
    Ok(())
}

/// The events that the expectations watch for, in their order.
pub fn watch(alloc: Global, expectations: &[Expectation]) -> Result<Vec<Watched>, AllocError>
    ensures { IfOk result (λ v. v.items ≡ flat_map watched_by expectations.now) }
{
    let mut all = Vec::new(alloc);
    for expectation in expectations {
        put_watched(&mut all, expectation)?;
    }
    Ok(all)
}
