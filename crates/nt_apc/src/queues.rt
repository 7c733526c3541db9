//! The queues of one thread.
ghost use Rattle.std.specs.Bool.{OnFalse, OnTrue};
ghost use Rattle.std.specs.Prelude.{◌≡◌, ◌<◌, IfOk, IfSome, IfNone, is_some, length, option_map};
ghost use Rattle.std.specs.Prelude.{reverse, ℕ};
ghost use Rattle.nt_event.specs.Apcs as spec;
ghost use Rattle.nt_apc.specs.Firsts.{kind_with, may_begin as may_begin_of};
ghost use Rattle.nt_event.specs.declared.numbers.ApcNo.{ApcNo as Apc};

use crate::items;
use nt_event::{ApcKind, ApcNo, Level, Pick, Regions};
use std::alloc::{AllocError, Global};
use std::marker::Model;

/// The numbers of APC objects are below this: a script has at most so many.
pub const MOST_OBJECTS: u16 = 256;

/// The APC queues of one thread.
///
/// Contracts see the pending inserts, the newest first, and whether the doors are closed.
#[derive(Drop)]
pub struct ApcQueues {
    /// The pending inserts of all kinds, in order of insertion.
    items: Vec<Pick>,
    closed: bool,
}

impl Model for ApcQueues {
    ghost use Rattle.std.specs.Prelude.{reverse, vec_capacity, ◌≤◌};
    ghost use Rattle.nt_event.specs.Apcs.{ApcQueues};
    ghost use Rattle.nt_apc.specs.Objects.{AreObjects};

    ghost Value = { ApcQueues };

    ghost view = { λ a. record { pending = reverse a.items.items; closed = a.closed } };

    ghost invariant = { λ a. AreObjects a.items.items × (256 ≤ vec_capacity a.items) };
}

impl ApcQueues {
    /// Empty queues with open doors, and room for `count` objects and for no fewer than
    /// [`MOST_OBJECTS`]. No later call but [`ApcQueues::copy`] takes memory.
    pub fn new(alloc: Global, count: u32) -> Result<ApcQueues, AllocError>
        ensures { IfOk result (λ q. q ≡ spec.start_apcs) }
    {
        let room = count.max(u32::from(MOST_OBJECTS));
        Ok(ApcQueues {
            items: Vec::with_capacity(alloc, room as usize)?,
            closed: false,
        })
    }

    /// The pending inserts of all kinds, the oldest first.
    pub fn pending(&self) -> &[Pick]
        ensures { reverse result.now ≡ self.now.pending }
    {
        self.items.as_slice()
    }

    /// Whether the doors are closed: no APC is inserted any more.
    pub fn is_closed(&self) -> bool
        ensures { result ≡ self.now.closed }
    {
        self.closed
    }

    /// A copy of them, with room for [`MOST_OBJECTS`] objects.
    pub fn copy(&self, alloc: Global) -> Result<ApcQueues, AllocError>
        ensures { IfOk result (λ q. q ≡ self.now) }
    {
        let mut items = Vec::with_capacity(alloc, usize::from(MOST_OBJECTS))?;
        items.extend_from_slice(self.items.as_slice())?;
        Ok(ApcQueues {
            items,
            closed: self.closed,
        })
    }

    /// Inserts the object as the newest of its kind, under the number `n` of the inserting event.
    /// False exactly where the object is inserted already or the doors are closed.
    ///
    /// The numbers of a thread's inserts rise: `n` is meant to be above each number that was
    /// inserted here before, and then the first of a kind is the one of least number.
    pub fn insert(&mut self, a: ApcNo, kind: ApcKind, n: u64) -> bool
        requires { a.0 < 256 }
        ensures answer { result ≡ spec.takes a self.old }
        ensures yes { OnTrue result
            (self.new ≡ spec.with_apc (record { apc = a; kind = kind; number = n }) self.old) }
        ensures no { OnFalse result (self.new ≡ self.old) }
    {
        if !self.open_for(a) {
            return false;
        }
        let pick = Pick {
            apc: a,
            kind,
            number: n,
        };
        items::put(&mut self.items, pick);
        true
    }

    /// Whether an insert of the object would answer true.
    pub fn open_for(&self, a: ApcNo) -> bool
        ensures { result ≡ spec.takes a self.now }
    {
        !self.closed && !items::is_inserted(self.items.as_slice(), a)
    }

    /// Takes the object out. True exactly where it was inserted.
    pub fn remove(&mut self, a: ApcNo) -> bool
        ensures answer { result ≡ spec.is_inserted a self.old }
        ensures after { self.new ≡ spec.without_apc a self.old }
        ensures no { OnFalse result (self.new ≡ self.old) }
        ensures fewer { OnTrue result (length self.new.pending < length self.old.pending) }
    {
        items::take_out(&mut self.items, a)
    }

    /// The first kernel APC, where a thread at this level and in these regions lets it through.
    pub fn deliverable(&self, regions: Regions, level: Level) -> Option<Pick>
        ensures { result ≡ spec.deliverable self.now regions level }
    {
        let first = self.kernel_first()?;
        if level.number() == 0 && lets_through(regions, first.kind) {
            Some(first)
        } else {
            None
        }
    }

    /// Whether a kernel APC would be deliverable, at this level and in these regions, once an APC
    /// of this kind is inserted.
    pub fn deliverable_with(&self, kind: ApcKind, regions: Regions, level: Level) -> bool
        ensures { (a : Apc) (n : ℕ) →
            result ≡ is_some (spec.deliverable
            (spec.with_apc (record { apc = a; kind = kind; number = n }) self.now) regions level) }
    {
        may_begin(self.first_kind_with(kind), regions, level)
    }

    /// The kind of the first kernel APC once an APC of this kind is inserted.
    fn first_kind_with(&self, kind: ApcKind) -> Option<ApcKind>
        ensures { result ≡ kind_with kind (option_map (λ x. x.kind) (spec.first_kernel self.now)) }
    {
        let first = self.kernel_first().map(|pick| pick.kind);
        match kind {
            ApcKind::Special => Some(ApcKind::Special),
            ApcKind::Normal => Some(first.unwrap_or(ApcKind::Normal)),
            ApcKind::User => first,
        }
    }

    /// The first kernel APC: the oldest special one, else the oldest normal one.
    fn kernel_first(&self) -> Option<Pick>
        ensures { result ≡ spec.first_kernel self.now }
    {
        match self.first_of_kind(ApcKind::Special) {
            Some(pick) => Some(pick),
            None => self.first_of_kind(ApcKind::Normal),
        }
    }

    fn first_of_kind(&self, kind: ApcKind) -> Option<Pick>
        ensures { result ≡ spec.first_of_kind kind self.now }
    {
        items::first_of_kind(self.items.as_slice(), kind)
    }

    /// The first user APC: the oldest one.
    pub fn user_first(&self) -> Option<Pick>
        ensures { result ≡ spec.first_user self.now }
    {
        self.first_of_kind(ApcKind::User)
    }

    /// Whether a kernel APC is inserted.
    pub fn has_kernel(&self) -> bool
        ensures { result ≡ spec.has_kernel self.now }
    {
        self.kernel_first().is_some()
    }

    /// Takes the pick out. It is meant to be one that [`ApcQueues::deliverable`] or
    /// [`ApcQueues::user_first`] answered on this state.
    pub fn take(&mut self, pick: Pick)
        ensures { self.new ≡ spec.without_apc pick.apc self.old }
    {
        let _ = items::take_out(&mut self.items, pick.apc);
    }

    /// From here on no insert is accepted.
    pub fn close_doors(&mut self)
        ensures { self.new ≡ spec.closed_apcs self.old }
    {
        self.closed = true;
    }

    /// Takes out the first user APC, and answers it with the number of its insert. None exactly
    /// where there is none.
    pub fn flush_next(&mut self) -> Option<(ApcNo, u64)>
        ensures answer { result ≡ option_map (λ x. (x.apc, x.number)) (spec.first_user self.old) }
        ensures after { IfSome result (λ y. self.new ≡ spec.without_apc y.0 self.old) }
        ensures none { IfNone result (self.new ≡ self.old) }
        ensures fewer { IfSome result (λ y.
            length self.new.pending < length self.old.pending) }
    {
        let first = self.user_first()?;
        self.take(first);
        Some((first.apc, first.number))
    }
}

/// Whether a kernel APC of this kind, where there is one, may begin at this level and in these
/// regions.
fn may_begin(kind: Option<ApcKind>, regions: Regions, level: Level) -> bool
    ensures { result ≡ may_begin_of regions level kind }
{
    match kind {
        Some(kind) => level.number() == 0 && lets_through(regions, kind),
        None => false,
    }
}

/// Whether regions let a kernel APC of this kind through.
fn lets_through(regions: Regions, kind: ApcKind) -> bool
    ensures { result ≡ spec.lets_through regions kind }
{
    match kind {
        ApcKind::Special => regions.guard == 0,
        ApcKind::Normal | ApcKind::User => regions.guard == 0 && regions.crit == 0 && !regions.busy,
    }
}
