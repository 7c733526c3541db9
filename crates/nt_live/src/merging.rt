//! The events of several lists in the order of their numbers.
ghost use Rattle.std.specs.Prelude.{◌≡◌, ◌<◌, ◌⊎◌, ℕ, List, Contains, IfOk, get_or, length};
ghost use Rattle.nt_event.specs.declared.events.Event.{Event};
ghost use Rattle.nt_live.specs.Merging.{ArePlaced, numbers_of};
ghost use Rattle.nt_live.specs.OwnLists.{all_pairs};
ghost use Rattle.nt_live.specs.Places.{IsAmong, IsIn, event_at};
ghost use Rattle.nt_live.specs.declared.merging.Place.{Place};
ghost use Rattle.nt_mark.specs.Closing.{IsEachOnce};

use crate::list::MadeList;
use nt_history::Events;
use std::alloc::{AllocError, Global};

/// Where an event is kept: in which of the lists, and at which place of it.
#[derive(Clone, Copy)]
struct Place {
    list: usize,
    at: usize,
}

/// Notes for the number of each event of a list where the event is kept.
fn note_places(places: &mut [Place], which: usize, list: &MadeList)
    requires below { (x : ℕ × Event) → Contains list.now x → x.0 < length places.old }
    ensures count { length places.new ≡ length places.old }
    ensures others { (n : ℕ) (p : Place) →
        (get_or places.new n p ≡ get_or places.old n p) ⊎
        IsIn list.now which n (get_or places.new n p) }
    ensures noted { (x : ℕ × Event) (p : Place) → Contains list.now x →
        IsIn list.now which x.0 (get_or places.new x.0 p) }
{
    for at in 0..list.len() {
        places[list.number(at) as usize] = Place { list: which, at };
    }
}

/// Notes for each number where its event is kept.
fn note_all(places: &mut [Place], lists: &[MadeList])
    requires below { (x : ℕ × Event) → Contains (all_pairs lists.now) x →
        x.0 < length places.old }
    ensures count { length places.new ≡ length places.old }
    ensures noted { (x : ℕ × Event) (p : Place) → Contains (all_pairs lists.now) x →
        IsAmong lists.now x.0 (get_or places.new x.0 p) }
{
    for which in 0..lists.len() {
        note_places(places, which, &lists[which]);
    }
}

/// Where the event of each number is kept. The numbers are those below their count.
fn places_of(alloc: Global, lists: &[MadeList], count: u64) -> Result<Vec<Place>, AllocError>
    requires below { (x : ℕ × Event) → Contains (all_pairs lists.now) x → x.0 < count }
    ensures count { IfOk result (λ ps. length ps.items ≡ count) }
    ensures noted { IfOk result
        (λ ps. (x : ℕ × Event) (p : Place) → Contains (all_pairs lists.now) x →
        IsAmong lists.now x.0 (get_or ps.items x.0 p)) }
{
    let mut places = vec![in alloc; Place { list: 0, at: 0 }; count as usize]?;
    note_all(places.as_mut_slice(), lists);
    Ok(places)
}

/// The events that are kept at these places, in order.
fn read_all(alloc: Global, places: &[Place], lists: &[MadeList]) -> Result<Events, AllocError>
    requires { (n : ℕ) (p : Place) → n < length places.now →
        IsAmong lists.now n (get_or places.now n p) }
    ensures count { IfOk result (λ es. length es ≡ length places.now) }
    ensures each { IfOk result
        (λ es. (n : ℕ) (e : Event) (p : Place) (d : List (ℕ × Event)) (x : ℕ × Event) →
        n < length places.now →
        get_or es n e ≡ event_at lists.now (get_or places.now n p) d x) }
{
    let mut events = Events::new(alloc);
    for at in 0..places.len() {
        let place = places[at];
        lists[place.list].put_behind(place.at, &mut events)?;
    }
    Ok(events)
}

/// The events of lists in the order of their numbers, which are those below their count, each once.
pub(crate) fn by_number(alloc: Global, lists: &[MadeList], count: u64) -> Result<Events, AllocError>
    requires count { count ≡ length (all_pairs lists.now) }
    requires once { IsEachOnce count (numbers_of (all_pairs lists.now)) }
    ensures { IfOk result (λ es. ArePlaced (all_pairs lists.now) es) }
{
    let places = places_of(alloc, lists, count)?;
    read_all(alloc, places.as_slice(), lists)
}
