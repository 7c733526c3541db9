//! Entries in order of insertion: the first of a part, and the depth.
ghost use Rattle.std.specs.Prelude.{◌≡◌, ◌≤◌, find, length, position, reverse};
ghost use Rattle.nt_event.specs.Queues.{depth_of, first_dpc, insert_asks, is_high_in, is_in};
ghost use Rattle.nt_event.specs.Queues.{is_of_dpc};
ghost use Rattle.nt_dpc.specs.Queues.{holds_dpc};

use nt_event::{DpcNo, Importance, Insert, Part};

/// Whether the entry is of the part.
fn is_in(part: Part, x: &Insert) -> bool
    ensures { result ≡ is_in part x.now }
{
    part == x.part
}

/// The High entry of the part that was inserted last, else the entry of the part that was inserted
/// first.
pub(crate) fn first(items: &[Insert], part: Part) -> Option<Insert>
    ensures { result ≡ first_dpc part (reverse items.now) }
{
    match newest_high(items, part) {
        Some(x) => Some(x),
        None => oldest(items, part),
    }
}

fn newest_high(items: &[Insert], part: Part) -> Option<Insert>
    ensures { result ≡ find (is_high_in part) (reverse items.now) }
{
    items
        .iter()
        .rev()
        .copied()
        .find(|x| x.high && is_in(part, x))
}

fn oldest(items: &[Insert], part: Part) -> Option<Insert>
    ensures { result ≡ find (is_in part) items.now }
{
    items.iter().copied().find(|x| is_in(part, x))
}

/// How many ordinary entries there are.
pub(crate) fn depth(items: &[Insert]) -> usize
    ensures value { result ≡ depth_of (reverse items.now) }
    ensures bound { result ≤ length items.now }
{
    items.iter().filter(|x| is_in(Part::Ordinary, x)).count()
}

/// Whether an entry of the object stands there.
pub(crate) fn holds(items: &[Insert], d: DpcNo) -> bool
    ensures { result ≡ holds_dpc d (reverse items.now) }
{
    items.iter().rev().any(|x| x.dpc.0 == d.0)
}

/// The place of the object's entry, if it has one.
pub(crate) fn place_of(items: &[Insert], d: DpcNo) -> Option<usize>
    ensures { result ≡ position (is_of_dpc d) items.now }
{
    items.iter().position(|x| x.dpc.0 == d.0)
}

/// Whether an ordinary insert asks for a dispatch interrupt, by importance, whether the queue is
/// the inserting processor's own, whether its depth is above the limit and whether its processor is
/// idle (profile).
pub(crate) fn insert_asks(importance: Importance, own: bool, deep: bool, idle: bool) -> bool
    ensures { result ≡ insert_asks importance own deep idle }
{
    match importance {
        Importance::Low => deep || (!own && idle),
        Importance::Medium => own || deep || idle,
        Importance::MediumHigh | Importance::High => true,
    }
}
