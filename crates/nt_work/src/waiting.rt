//! How many inserts are pending before an event.
ghost use Rattle.std.specs.Prelude.{◌≡◌, ◌+◌, ◌<◌, ◌≤◌, IfOk, OnOk, filter, length, map};
ghost use Rattle.std.specs.Prelude.{reverse, take, ℕ};
ghost use Rattle.nt_event.specs.declared.limits.TheConstants.{EVENTS};
ghost use Rattle.nt_event.specs.Fate.{fate_of, still_waits};
ghost use Rattle.nt_work.specs.Audits.{lent, waiting, waitings, waits_in};
ghost use Rattle.nt_work.specs.Changes.{added_by, after_change, change_at, inserted_of};
ghost use Rattle.nt_work.specs.Changes.{RiseBelow, stays_by, thing_of};
ghost use Rattle.nt_work.specs.declared.change.Change.TheVariants.{Takes};

use crate::change::{Change, Insert, change_at};
use nt_history::{Briefs, History};
use std::alloc::{AllocError, Global};

/// Whether the insert still waits before the event of this number, a later one.
fn waits_until(events: &Briefs, insert: &Insert, end: usize) -> bool
    requires number { insert.now.number < end }
    requires end { end ≤ length events.now.briefs.now }
    ensures { result ≡ still_waits (fate_of (thing_of insert.now.object) insert.now.number
        (reverse (take end (lent events.now)))) }
{
    for number in insert.number as usize + 1..end {
        if change_at(events, number).uses_up(insert) {
            return false;
        }
    }
    true
}

/// 1 where the event of this number is an insert that still waits before the event `end`, a later
/// one; else 0.
fn one_waits(events: &Briefs, number: usize, end: usize) -> u32
    requires number { number < end }
    requires end { end ≤ length events.now.briefs.now }
    ensures waits { result ≡ length (filter (waits_in (reverse (take end (lent events.now))))
        (added_by (change_at (lent events.now) number) number)) }
    ensures one { result ≤ 1 }
{
    match change_at(events, number) {
        Change::Inserts(object) => {
            let insert = Insert {
                number: number as u64,
                object,
            };
            u32::from(waits_until(events, &insert, end))
        }
        Change::Removes(_) | Change::Takes(_) | Change::Nothing => 0,
    }
}

/// How many inserts are pending before the event of this number. It takes no memory.
///
/// An insert is a call of `queue` or `apc`, or the expiry of a timer that inserts its DPC object,
/// with reply yes. It is pending as long as no later event begins, removes or flushes it. The
/// history has at most 160,000 events, and the number is at most how many there are.
pub fn waiting_at(history: &History, number: u64) -> u32
    requires events { length history.now.events ≤ EVENTS }
    requires number { number ≤ length history.now.events }
    ensures { result ≡ waiting history.now.events number }
{
    let events = history.lend();
    let end = number as usize;
    let mut count: u32 = 0;
    for place in 0..end {
        count += one_waits(&events, place, end);
    }
    count
}

/// Keeps the inserts that the change doesn't use up, which may be several.
fn keep_others(pending: &mut Vec<Insert>, change: Change)
    ensures kept { pending.new.items ≡ filter (stays_by change) pending.old.items }
    ensures fewer { length pending.new.items ≤ length pending.old.items }
{
    pending.retain(
        |insert| -> bool
            ensures { result ≡ stays_by change insert.now }
        { !change.uses_up(insert) },
    );
}

/// Takes away the insert that is used up, if it is there. In a run it is mostly among the first.
fn take_away(pending: &mut Vec<Insert>, taken: Insert)
    requires { (n : ℕ) × RiseBelow n pending.old.items }
    ensures kept { pending.new.items ≡ filter (stays_by (Takes taken)) pending.old.items }
    ensures fewer { length pending.new.items ≤ length pending.old.items }
{
    let change = Change::Takes(taken);
    for place in 0..pending.len() {
        if change.uses_up(&pending[place]) {
            pending.remove(place);
            return;
        }
    }
}

/// Brings the pending inserts up to date behind the event of this number.
fn note(pending: &mut Vec<Insert>, change: Change, number: u64) -> Result<(), AllocError>
    requires { RiseBelow number pending.old.items }
    ensures rise { OnOk result (RiseBelow (number + 1) pending.new.items) }
    ensures noted { OnOk result (map inserted_of pending.new.items ≡
        after_change change number (map inserted_of pending.old.items)) }
    ensures more { length pending.new.items ≤ length pending.old.items + 1 }
{
    match change {
        Change::Inserts(object) => pending.push(Insert { number, object })?,
        Change::Removes(_) => keep_others(pending, change),
        Change::Takes(taken) => take_away(pending, taken),
        Change::Nothing => {}
    }
    Ok(())
}

/// How many inserts are pending before each event, by its number: from one walk over the events.
///
/// There are at most 160,000 events.
pub fn waiting_counts(alloc: Global, events: &Briefs) -> Result<Vec<u32>, AllocError>
    requires { length events.now.briefs.now ≤ EVENTS }
    ensures { IfOk result (λ v. v.items ≡ waitings (reverse (lent events.now))) }
{
    let mut counts = Vec::with_capacity(alloc, events.briefs.len())?;
    let mut pending: Vec<Insert> = Vec::new(alloc);
    for number in 0..events.briefs.len() {
        counts.push_reserved(pending.len() as u32);
        note(&mut pending, change_at(events, number), number as u64)?;
    }
    Ok(counts)
}
