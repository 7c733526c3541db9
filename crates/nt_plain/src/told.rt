//! What the lanes tell of requests.
ghost use Rattle.std.specs.List.{list_any};
ghost use Rattle.std.specs.Prelude.{◌≡◌, ◌==◌, ◌+◌, ◌*◌, ◌<◌, ◌≤◌, ◌^◌, ℕ, All, IfOk, false};
ghost use Rattle.std.specs.Prelude.{get_or, if◌then◌else◌, length, max, replicate, set};
ghost use Rattle.nt_event.specs.Classes.{lock_class};
ghost use Rattle.nt_event.specs.Lanes.{lane_number as number_of};
ghost use Rattle.nt_event.specs.Lists.{table, value_at};
ghost use Rattle.nt_event.specs.Requests.{is_ask};
ghost use Rattle.nt_event.specs.Acts.{told_over};
ghost use Rattle.nt_floor.specs.Seen.{SameInterrupts};
ghost use Rattle.nt_states.specs.LaneLists.{as_ask, as_asks};
ghost use Rattle.nt_plain.specs.Classes.{is_lock, is_told_class, is_work_class, raised_class};
ghost use Rattle.nt_plain.specs.Made.{tell_lane, tell_lanes};
ghost use Rattle.nt_plain.specs.Places.{row_of as row_place, row_value, told_place};

use crate::places::row_of;
use nt_event::{Asked, CpuNo, Lane, Script, class};
use nt_floor::Seen;
use std::alloc::{AllocError, Global};
use std::marker::Model;

/// For each lane and processor a row of 16 values, one for each class. A value is at most the
/// greatest number of events, so four bytes are enough.
#[derive(Drop, Debug)]
pub(crate) struct ToldValues {
    values: Vec<u32>,
}

impl Model for ToldValues {
    ghost use Rattle.std.specs.List.{list_any};
    ghost use Rattle.std.specs.Prelude.{List, ℕ};

    ghost Value = { List ℕ };

    ghost view = { λ a. a.values.items };
}

impl ToldValues {
    /// Nothing told, in so many rows.
    pub(crate) fn new(alloc: Global, rows: usize) -> Result<ToldValues, AllocError>
        requires { rows < 2 ^ 32 }
        ensures { IfOk result (λ x. x ≡ replicate (rows * 16) 0) }
    {
        let count = rows * 16;
        let values = vec![in alloc; 0u32; count]?;
        Ok(ToldValues { values })
    }

    /// A copy of them.
    pub(crate) fn copy(&self, alloc: Global) -> Result<ToldValues, AllocError>
        ensures { IfOk result (λ x. x ≡ self.now) }
    {
        Ok(ToldValues {
            values: self.values.to_vec(alloc)?,
        })
    }

    /// The value of a class in a row.
    pub(crate) fn get(&self, row: usize, class: u8) -> u64
        requires { row * 16 + class < length self.now }
        ensures { result ≡ get_or self.now (row * 16 + class) 0 }
    {
        u64::from(self.values[row * 16 + usize::from(class)])
    }

    /// Writes the value of a class in a row.
    pub(crate) fn put(&mut self, row: usize, class: u8, value: u64)
        requires place { row * 16 + class < length self.old }
        requires bound { value < 2 ^ 32 }
        ensures { self.new ≡ set self.old (row * 16 + class) value }
    {
        self.values[row * 16 + usize::from(class)] = value as u32;
    }

    /// Raises what was seen to the values of a row of the lane. False only where what was seen of
    /// interrupts is as before.
    fn raise(&self, lane: Lane, row: usize, seen: &mut Seen) -> bool
        requires row { row * 16 + 16 ≤ length self.now }
        requires others { (c : ℕ) → c < 16 → is_told_class lane c ≡ false →
            get_or self.now (row * 16 + c) 0 ≡ 0 }
        ensures values { seen.new
            ≡ table 16 (λ c. max (value_at seen.old c) (get_or self.now (row * 16 + c) 0)) }
        ensures interrupts { result ≡ false → SameInterrupts seen.old seen.new }
    {
        raise_told(lane, seen, &self.values[row * 16..row * 16 + 16])
    }

    /// Raises what a processor has seen to what these lanes tell it. False only where what was seen
    /// of interrupts is as before.
    pub(crate) fn raise_over(
        &self,
        script: &Script,
        lanes: &[Lane],
        p: CpuNo,
        seen: &mut Seen,
    ) -> bool
        requires rows { All
            (λ x. row_place script.now.cpus (number_of script.now x) p * 16 + 16 ≤ length self.now)
            lanes.now }
        requires numbers { All (λ x. number_of script.now x < 2 ^ 32) lanes.now }
        requires room { length self.now < 2 ^ 32 }
        requires others { All (λ x.
            (c : ℕ) → c < 16 → is_told_class x c ≡ false → row_value script.now self.now x p c ≡ 0)
            lanes.now }
        ensures values { (c : ℕ) → c < 16 →
            value_at seen.new c
            ≡ max (value_at seen.old c) (told_over (row_value script.now self.now) lanes.now p c) }
        ensures interrupts { result ≡ false → SameInterrupts seen.old seen.new }
    {
        let mut interrupts = false;
        for lane in lanes {
            let row = row_of(script.cpus, lane.number(script), p);
            if self.raise(*lane, row, seen) {
                interrupts = true;
            }
        }
        interrupts
    }

    /// Each of these lanes tells of these requests with a value.
    pub(crate) fn tell(&mut self, script: &Script, lanes: &[Lane], asks: &[Asked], to: u64)
        requires places { All
            (λ x. All (λ a. told_place script.now x a.cpu a.class < length self.old) asks.now)
            lanes.now }
        requires numbers { All (λ x. number_of script.now x < 2 ^ 32) lanes.now }
        requires room { length self.old < 2 ^ 32 }
        requires bound { to < 2 ^ 32 }
        ensures { self.new ≡ tell_lanes script.now to lanes.now (as_asks asks.now) self.old }
    {
        for lane in lanes {
            self.tell_lane(script, *lane, asks, to);
        }
    }

    /// The lane tells of these requests with a value.
    fn tell_lane(&mut self, script: &Script, lane: Lane, asks: &[Asked], to: u64)
        requires places { All (λ a. told_place script.now lane a.cpu a.class < length self.old)
            asks.now }
        requires number { number_of script.now lane < 2 ^ 32 }
        requires room { length self.old < 2 ^ 32 }
        requires bound { to < 2 ^ 32 }
        ensures { self.new ≡ tell_lane script.now to lane (as_asks asks.now) self.old }
    {
        let number = lane.number(script);
        for ask in asks {
            let row = row_of(script.cpus, number, ask.cpu);
            self.put(row, ask.class, to);
        }
    }
}

/// Raises what was seen to these values, which the lane tells. False only where what was seen of
/// interrupts is as before.
fn raise_told(lane: Lane, seen: &mut Seen, told: &[u32]) -> bool
    requires classes { length told.now ≡ 16 }
    requires others { (c : ℕ) → c < 16 → is_told_class lane c ≡ false → get_or told.now c 0 ≡ 0 }
    ensures values { seen.new ≡ table 16 (λ c. max (value_at seen.old c) (get_or told.now c 0)) }
    ensures interrupts { result ≡ false → SameInterrupts seen.old seen.new }
{
    if is_lock(lane) {
        raise_by_lock(seen, told)
    } else {
        raise_by(seen, told)
    }
}

/// Whether the lane is a lock's.
fn is_lock(lane: Lane) -> bool
    ensures { result ≡ is_lock lane }
{
    match lane {
        Lane::Lock(_) => true,
        Lane::Object(_) | Lane::Queue(_) | Lane::Threads(_) | Lane::Timers => false,
    }
}

/// Raises what was seen to these values, which a lock tells. False only where what was seen of
/// interrupts is as before.
fn raise_by_lock(seen: &mut Seen, told: &[u32]) -> bool
    requires classes { length told.now ≡ 16 }
    requires others { (c : ℕ) → c < 16 → (lock_class == c) ≡ false → get_or told.now c 0 ≡ 0 }
    ensures values { seen.new ≡ table 16 (λ c. max (value_at seen.old c) (get_or told.now c 0)) }
    ensures interrupts { result ≡ false → SameInterrupts seen.old seen.new }
{
    raise_class(seen, told, class::LOCK)
}

/// Raises what was seen to these values, which a lane tells that is no lock's. False only where
/// what was seen of interrupts is as before. Such lanes tell of four classes alone, so the others
/// are not looked at.
fn raise_by(seen: &mut Seen, told: &[u32]) -> bool
    requires classes { length told.now ≡ 16 }
    requires others { (c : ℕ) → c < 16 → is_work_class c ≡ false → get_or told.now c 0 ≡ 0 }
    ensures values { seen.new ≡ table 16 (λ c. max (value_at seen.old c) (get_or told.now c 0)) }
    ensures interrupts { result ≡ false → SameInterrupts seen.old seen.new }
{
    raise_class(seen, told, class::THREADED);
    raise_class(seen, told, class::APC);
    raise_class(seen, told, class::DISPATCH);
    raise_class(seen, told, class::CLOCK)
}

/// Raises what was seen of a class to the value told of it. False only where what was seen of
/// interrupts is as before.
fn raise_class(seen: &mut Seen, told: &[u32], class: u8) -> bool
    requires classes { length told.now ≡ 16 }
    requires class { class < 16 }
    ensures values { seen.new ≡ raised_class class told.now seen.old }
    ensures interrupts { result ≡ false → SameInterrupts seen.old seen.new }
{
    seen.raise(class, u64::from(told[usize::from(class)]))
}

/// Raises what a processor has seen to this value in the class that a request asks it for. False
/// only where what was seen of interrupts is as before.
fn raise_ask(seen: &mut Seen, ask: Asked, p: CpuNo, to: u64) -> bool
    requires { ask.class < 16 }
    ensures values { (c : ℕ) → c < 16 →
        value_at seen.new c
        ≡ max (value_at seen.old c) (if is_ask p c (as_ask ask) then to else 0) }
    ensures interrupts { result ≡ false → SameInterrupts seen.old seen.new }
{
    ask.cpu.0 == p.0 && seen.raise(ask.class, to)
}

/// Raises what a processor has seen to this value in the classes that these requests ask it for.
/// False only where what was seen of interrupts is as before.
pub(crate) fn raise_own(seen: &mut Seen, asks: &[Asked], p: CpuNo, to: u64) -> bool
    requires { All (λ a. a.class < 16) asks.now }
    ensures values { (c : ℕ) → c < 16 →
        value_at seen.new c
        ≡ max (value_at seen.old c) (if list_any (is_ask p c) (as_asks asks.now) then to else 0) }
    ensures interrupts { result ≡ false → SameInterrupts seen.old seen.new }
{
    let mut interrupts = false;
    for ask in asks {
        if raise_ask(seen, *ask, p, to) {
            interrupts = true;
        }
    }
    interrupts
}
