//! A hierarchical timer wheel: keys that aren't due stand in levels of 64 slots, due keys in the
//! order in which they expire.
ghost use Rattle.std.specs.Prelude.{ℕ, ◌≡◌, ◌+◌, ◌<◌, ◌≤◌, ◌^◌, IfOk, MatchOption, None, Some};
ghost use Rattle.std.specs.Prelude.{length, replicate, slice_index, slice_set};
ghost use Rattle.std.specs.Vec.{vec_capacity, vec_len};
ghost use Rattle.nt_event.specs.Timers.{setting_in};
ghost use Rattle.nt_event.specs.declared.inserts.Setting.{Setting};
ghost use Rattle.nt_timer.specs.declared.rings.TheConstants.{HEADS};
ghost use Rattle.nt_timer.specs.Due.{AreSorted};
ghost use Rattle.nt_timer.specs.Slots.{slot_index};
ghost use Rattle.nt_timer.specs.Wheel.{IsFirstKey, IsTurned, IsWheel, due_with, due_without};
ghost use Rattle.nt_timer.specs.Wheel.{home_of};

use crate::due::{DueKey, put_in, take_out};
use crate::rings::{HEADS, Rings};
use crate::slots::slot_index;
use nt_event::Setting;
use std::alloc::{AllocError, Global};
use std::marker::Model;

/// The time, and for each key when it is due. A key that isn't due stands in the slot that the time
/// and its due time give; one due at 2^54 or later, which the time never reaches, stands in none.
/// Due keys stand in the order in which they expire.
#[derive(Drop, Debug)]
pub(crate) struct Wheel {
    now: u64,
    settings: Vec<Option<Setting>>,
    /// The rings of the slots; after their heads comes a node for each key.
    rings: Rings,
    due: Vec<DueKey>,
    /// No key stands in a slot below this one.
    lowest: usize,
}

impl Model for Wheel {
    ghost use Rattle.std.specs.Prelude.{◌<◌, ◌≤◌, ◌^◌, length};
    ghost use Rattle.std.specs.Vec.{vec_capacity};
    ghost use Rattle.nt_timer.specs.Wheel.{IsWheel, WheelFacts};
    ghost use Rattle.nt_timer.specs.declared.rings.TheConstants.{HEADS};

    ghost Value = { WheelFacts };

    ghost view = { λ a. record { now = a.now; settings = a.settings.items } };

    ghost invariant = { λ a.
        (a.now < 2 ^ 50) × (a.lowest ≤ HEADS) × (length a.settings.items < 2 ^ 34) ×
        (length a.settings.items ≤ vec_capacity a.due) ×
        IsWheel a.lowest a.now a.settings.items a.rings a.due.items };
}

impl Wheel {
    /// Time 0, with nothing set, for so many keys. No later call but [`Wheel::copy`] takes memory.
    pub(crate) fn new(alloc: Global, count: usize) -> Result<Wheel, AllocError>
        requires { count < 2 ^ 34 }
        ensures { IfOk result (λ w. w ≡ record { now = 0; settings = replicate count None }) }
    {
        let settings = unset(alloc, count)?;
        let rings = Rings::new(alloc, HEADS + count)?;
        let due = Vec::with_capacity(alloc, count)?;
        Ok(Wheel {
            now: 0,
            settings,
            rings,
            due,
            lowest: HEADS,
        })
    }

    /// A copy of it, with room for all keys.
    pub(crate) fn copy(&self, alloc: Global) -> Result<Wheel, AllocError>
        ensures { IfOk result (λ w. w ≡ self.entry.now) }
    {
        let settings = self.settings.to_vec(alloc)?;
        let rings = self.rings.copy(alloc)?;
        let mut due = Vec::with_capacity(alloc, self.settings.len())?;
        due.extend_from_slice(self.due.as_slice())?;
        Ok(Wheel {
            now: self.now,
            settings,
            rings,
            due,
            lowest: self.lowest,
        })
    }

    /// The time.
    pub(crate) fn now(&self) -> u64
        ensures same { result ≡ self.entry.now.now }
        ensures bound { result < 2 ^ 50 }
    {
        self.now
    }

    /// When the key is due, where it is set; none past the keys.
    pub(crate) fn setting(&self, key: usize) -> Option<Setting>
        ensures { result ≡ setting_in self.entry.now.settings key }
    {
        if key < self.settings.len() {
            self.settings[key]
        } else {
            None
        }
    }

    /// Writes when the key is due, or that it isn't set.
    pub(crate) fn put(&mut self, key: usize, setting: Option<Setting>)
        requires { key < length self.old.settings }
        ensures { self.new
            ≡ record self.old { settings = slice_set self.old.settings key setting } }
    {
        let old = self.settings[key];
        lift(&mut self.rings, &mut self.due, self.now, key, old);
        self.settings[key] = setting;
        if let Some(setting) = setting {
            stand(
                &mut self.rings,
                &mut self.due,
                &mut self.lowest,
                self.now,
                key,
                setting,
            );
        }
    }

    /// Lets the time advance by so many units. It looks at the slots from the lowest that may hold
    /// a key up to that of the new time.
    pub(crate) fn advance(&mut self, units: u32)
        requires { self.old.now + units < 2 ^ 50 }
        ensures { self.new ≡ record self.old { now = self.old.now + units } }
    {
        if units == 0 {
            return;
        }
        let past = self.now;
        self.now += u64::from(units);
        turn(
            &mut self.rings,
            &mut self.due,
            &mut self.lowest,
            self.settings.as_slice(),
            past,
            self.now,
        );
    }

    /// The due key that expires first.
    pub(crate) fn first(&self) -> Option<DueKey>
        ensures { MatchOption result
            ((k : ℕ) (s : Setting) → setting_in self.entry.now.settings k ≡ Some s →
            self.entry.now.now < s.due)
            (IsFirstKey self.entry.now.now self.entry.now.settings) }
    {
        self.due.first().copied()
    }
}

/// Takes the key, which has this setting, out of where it stands.
fn lift(rings: &mut Rings, due: &mut Vec<DueKey>, now: u64, key: usize, old: Option<Setting>)
    requires few { key < 2 ^ 34 }
    requires below { HEADS + key < length rings.old }
    ensures homes { rings.new ≡ slice_set rings.old (HEADS + key) (HEADS + key) }
    ensures due { due.new.items ≡ due_without now key old due.old.items }
    ensures room { vec_capacity due.new ≡ vec_capacity due.old }
{
    rings.detach(HEADS + key);
    if let Some(old) = old
        && old.due <= now
    {
        take_out(due, key);
    }
}

/// Puts the key, which stands nowhere, where this setting says.
fn stand(
    rings: &mut Rings,
    due: &mut Vec<DueKey>,
    lowest: &mut usize,
    now: u64,
    key: usize,
    setting: Setting,
)
    requires few { key < 2 ^ 34 }
    requires below { HEADS + key < length rings.old }
    requires alone { slice_index rings.old (HEADS + key) ≡ HEADS + key }
    requires room { vec_len due.old < vec_capacity due.old }
    requires sorted { AreSorted due.old.items }
    requires lowest { lowest.old ≤ HEADS }
    ensures lowest { (lowest.new ≤ lowest.old) × (lowest.new ≤ home_of now setting.due key) }
    ensures homes { rings.new ≡ slice_set rings.old (HEADS + key) (home_of now setting.due key) }
    ensures due { due.new.items ≡ due_with now key setting due.old.items }
    ensures room { vec_capacity due.new ≡ vec_capacity due.old }
{
    if setting.due <= now {
        let first = DueKey {
            due: setting.due,
            number: setting.number,
            key,
        };
        put_in(due, first);
        return;
    }
    let slot = slot_index(now, setting.due);
    if slot < HEADS {
        rings.append(slot, HEADS + key);
        *lowest = slot.min(*lowest);
    }
}

/// Moves each key whose slot the time has reached.
fn turn(
    rings: &mut Rings,
    due: &mut Vec<DueKey>,
    lowest: &mut usize,
    settings: &[Option<Setting>],
    past: u64,
    now: u64,
)
    requires time { (past < now) × (now < 2 ^ 50) }
    requires few { length settings.now < 2 ^ 34 }
    requires room { length settings.now ≤ vec_capacity due.old }
    requires lowest { lowest.old ≤ HEADS }
    requires wheel { IsWheel lowest.old past settings.now rings.old due.old.items }
    ensures lowest { lowest.new ≤ HEADS }
    ensures wheel { IsWheel lowest.new now settings.now rings.new due.new.items }
    ensures room { vec_capacity due.new ≡ vec_capacity due.old }
{
    let first = *lowest;
    let end = slot_index(past, now) + 1;
    *lowest = first.max(end);
    for slot in first..end {
        empty(rings, due, lowest, settings, past, now, slot);
    }
}

/// Moves each key of the slot.
fn empty(
    rings: &mut Rings,
    due: &mut Vec<DueKey>,
    lowest: &mut usize,
    settings: &[Option<Setting>],
    past: u64,
    now: u64,
    slot: usize,
)
    requires time { (past < now) × (now < 2 ^ 50) × (slot ≤ slot_index past now) }
    requires few { length settings.now < 2 ^ 34 }
    requires room { length settings.now ≤ vec_capacity due.old }
    requires lowest { lowest.old ≤ HEADS }
    requires wheel { IsTurned lowest.old past now slot settings.now rings.old due.old.items }
    ensures lowest { lowest.new ≤ HEADS }
    ensures wheel { IsTurned lowest.new past now (slot + 1) settings.now rings.new due.new.items }
    ensures room { vec_capacity due.new ≡ vec_capacity due.old }
{
    while let Some(node) = rings.first(slot) {
        let key = node - HEADS;
        let Some(setting) = settings[key] else {
            unreachable!()
        };
        rings.detach(node);
        stand(rings, due, lowest, now, key, setting);
    }
}

/// A table in which nothing is set.
fn unset(alloc: Global, count: usize) -> Result<Vec<Option<Setting>>, AllocError>
    ensures { IfOk result (λ v. v.items ≡ replicate count None) }
{
    let mut settings = Vec::with_capacity(alloc, count)?;
    for _ in 0..count {
        settings.push_reserved(None);
    }
    Ok(settings)
}
