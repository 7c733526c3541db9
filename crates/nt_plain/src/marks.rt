//! The marks: for each event and processor, the classes that the event was marked for.
ghost use Rattle.std.specs.Prelude.{◌≡◌, ◌==◌, ◌<◌, ◌≤◌, ◌^◌, ℕ, All, IfErr, IfOk, get_or, length};
ghost use Rattle.std.specs.Prelude.{replicate, set, vec_capacity};
ghost use Rattle.std.specs.Int.{bit_at};
ghost use Rattle.std.specs.List.{insert};
ghost use Rattle.nt_states.specs.LaneLists.{as_asks};
ghost use Rattle.nt_plain.specs.Made.{marked_all, with_bit};
ghost use Rattle.nt_plain.specs.Places.{row_of as row_place};
ghost use Rattle.nt_plain.specs.Rows.{AreRising, GoesAt, StandsAt, with_classes};

use crate::places::row_of;
use nt_event::Asked;
use std::alloc::{AllocError, Global};
use std::marker::Model;

/// A row that has a mark.
#[derive(Clone, Copy, Debug)]
struct MarkedRow {
    row: usize,
    /// The classes that it is marked for, a bit for each.
    classes: u16,
}

/// For each event and processor a row of bits, one for each class. The rows that have a mark are
/// kept, in rising order; there is room for all from the start.
///
/// A row is sought from the last one backward, by steps that double: nearly each mark is of the
/// newest event, and nearly each mark that is asked for is among the last few. Any other takes a
/// time that grows with the logarithm of how far back it stands.
#[derive(Drop, Debug)]
pub(crate) struct Marks {
    /// How many rows there may be.
    count: usize,
    marked: Vec<MarkedRow>,
}

impl Model for Marks {
    ghost use Rattle.std.specs.Prelude.{List, ℕ, ◌≤◌, vec_capacity};
    ghost use Rattle.nt_plain.specs.Rows.{AreRising, all_rows};

    ghost Value = { List ℕ };

    ghost view = { λ a. all_rows a.count a.marked.items };

    ghost invariant = { λ a.
        (a.count ≤ vec_capacity a.marked) × AreRising 0 (vec_capacity a.marked) a.marked.items };
}

impl Marks {
    /// No mark, in so many rows.
    pub(crate) fn new(alloc: Global, count: usize) -> Result<Marks, AllocError>
        ensures { IfOk result (λ x. x ≡ replicate count 0) }
    {
        let marked = Vec::with_capacity(alloc, count)?;
        Ok(Marks { count, marked })
    }

    /// A copy of them, with room for all rows.
    pub(crate) fn copy(&self, alloc: Global) -> Result<Marks, AllocError>
        ensures { IfOk result (λ x. x ≡ self.now) }
    {
        let mut marked = Vec::with_capacity(alloc, self.marked.capacity())?;
        marked.extend_from_slice(self.marked.as_slice())?;
        Ok(Marks {
            count: self.count,
            marked,
        })
    }

    /// Whether the row has the mark of a class.
    pub(crate) fn has(&self, row: usize, class: u8) -> bool
        requires row { row < length self.now }
        requires class { class < 16 }
        ensures { result ≡ (bit_at (get_or self.now row 0) class == 1) }
    {
        (self.classes(row) >> class) & 1 == 1
    }

    /// The classes for which the row is marked, a bit for each.
    fn classes(&self, row: usize) -> u16
        requires { row < length self.now }
        ensures { result ≡ get_or self.now row 0 }
    {
        match place_of(self.marked.as_slice(), row) {
            Ok(place) => self.marked[place].classes,
            Err(_) => 0,
        }
    }

    /// Marks the row for a class.
    pub(crate) fn mark(&mut self, row: usize, class: u8)
        requires row { row < length self.old }
        requires class { class < 16 }
        ensures { self.new ≡ set self.old row (with_bit class (get_or self.old row 0)) }
    {
        put(&mut self.marked, row, 1 << class);
    }

    /// Marks the event of a number for these requests.
    pub(crate) fn mark_all(&mut self, cpus: u8, n: u64, asks: &[Asked])
        requires rows { All (λ a. row_place cpus n a.cpu < length self.old) asks.now }
        requires room { length self.old < 2 ^ 32 }
        requires classes { All (λ a. a.class < 16) asks.now }
        ensures { self.new ≡ marked_all cpus n (as_asks asks.now) self.old }
    {
        for ask in asks {
            self.mark(row_of(cpus, n as usize, ask.cpu), ask.class);
        }
    }
}

/// The place of the entry of a row; where it has none, the place at which one goes in.
fn place_of(marked: &[MarkedRow], row: usize) -> Result<usize, usize>
    ensures found { IfOk result (λ place. StandsAt row marked.now place) }
    ensures missing { IfErr result (λ place. GoesAt row marked.now place) }
{
    let count = marked.len();
    if count == 0 || marked[count - 1].row < row {
        return Err(count);
    }
    let mut low = 0;
    let mut high = count;
    while low < high {
        let place = next_place(low, high, count);
        let other = marked[place].row;
        if other == row {
            return Ok(place);
        }
        if other < row {
            low = place + 1;
        } else {
            high = place;
        }
    }
    Err(low)
}

/// Where to seek next between two places, of so many: twice as far back as before, while no row is
/// known to be below; then halfway.
fn next_place(low: usize, high: usize, count: usize) -> usize
    requires { (low < high) × (high ≤ count) }
    ensures { (low ≤ result) × (result < high) }
{
    if low == 0 {
        high - high.min(count - high + 1)
    } else {
        low + (high - low) / 2
    }
}

/// Adds classes to a row, which gets an entry where it has none.
fn put(marked: &mut Vec<MarkedRow>, row: usize, classes: u16)
    requires rows { AreRising 0 (vec_capacity marked.old) marked.old.items }
    requires row { row < vec_capacity marked.old }
    ensures items { marked.new.items ≡ with_classes row classes marked.old.items }
    ensures room { vec_capacity marked.new ≡ vec_capacity marked.old }
{
    match place_of(marked.as_slice(), row) {
        Ok(place) => marked[place].classes |= classes,
        Err(place) => put_at(marked, place, MarkedRow { row, classes }),
    }
}

/// Puts an entry at a place, mostly behind the others.
fn put_at(marked: &mut Vec<MarkedRow>, place: usize, entry: MarkedRow)
    requires place { place ≤ length marked.old.items }
    requires room { length marked.old.items < vec_capacity marked.old }
    ensures items { marked.new.items ≡ insert marked.old.items place entry }
    ensures room { vec_capacity marked.new ≡ vec_capacity marked.old }
{
    if place == marked.len() {
        marked.push_reserved(entry);
    } else {
        marked.insert(place, entry).unwrap();
    }
}
