//! What is watched of a run while its turns are taken again, and since when it is as it is.
ghost use Rattle.std.specs.Prelude.{◌≡◌, ◌<◌, ◌≤◌, ◌+◌, [], List, Some, if◌then◌else◌, length};
ghost use Rattle.std.specs.Prelude.{reverse};
ghost use Rattle.nt_event.specs.declared.events.Event.{Event};
ghost use Rattle.nt_event.specs.Frames.{innermost};
ghost use Rattle.nt_event.specs.Lanes.{facts_at};
ghost use Rattle.nt_event.specs.Lists.{value_at};
ghost use Rattle.nt_event.specs.Step.{IsRun};
ghost use Rattle.nt_history.specs.Briefs.{events_in};
ghost use Rattle.nt_plain.specs.States.{view_of};
ghost use Rattle.nt_cpu.specs.Runs.{state_of};
ghost use Rattle.nt_cpus.specs.Following.{AreAfter, AreSound, cpus_of};
ghost use Rattle.nt_why.specs.Past.{past_at};
ghost use Rattle.nt_why.specs.Watches.{WatchFits, doing_number, key_at, same_key, same_name};
ghost use Rattle.nt_why.specs.Watches.{since, stand_key};

use nt_cpu::{Cpu, no_event};
use nt_cpus::Processors;
use nt_event::{CpuNo, Doing, Event, ThreadNo};
use nt_frame::Frames;
use nt_history::Briefs;
use nt_plain::PlainFloor;

/// What is watched of a run.
#[derive(Clone, Copy)]
pub(crate) enum Watch {
    /// The innermost frame of the processor, and its level.
    Stand(CpuNo),
    /// The greatest request for the class that the processor noticed.
    Seen(CpuNo, u8),
    /// Whether the thread may be taken up, runs, is blocked or is gone.
    Doing(ThreadNo),
}

/// What is watched is so: the name of a frame, and a level or another number.
#[derive(Clone, Copy)]
pub(crate) struct Key {
    pub frame: Option<u64>,
    pub number: u64,
}

fn is_same_name(x: Option<u64>, y: Option<u64>) -> bool
    ensures { result ≡ same_name x y }
{
    match (x, y) {
        (None, None) => true,
        (Some(x), Some(y)) => x == y,
        (None, Some(_)) | (Some(_), None) => false,
    }
}

fn is_same(x: Key, y: Key) -> bool
    ensures { result ≡ same_key x y }
{
    is_same_name(x.frame, y.frame) && x.number == y.number
}

/// A processor of the script.
pub(crate) fn cpu_of<'a, 's>(processors: &'a Processors<'s>, p: CpuNo) -> &'a Cpu<'s>
    requires every { (past : List Event) ×
        (processors.now.cpus ≡ cpus_of processors.now.script processors.now.limit past) }
    requires cpu { p.0 < processors.now.script.cpus }
    ensures { (past : List Event) →
        processors.now.cpus ≡ cpus_of processors.now.script processors.now.limit past →
        result.now ≡ state_of processors.now.script p processors.now.limit past }
{
    &processors.cpus()[usize::from(p.0)]
}

fn stand_key(frames: &Frames) -> Key
    ensures { result ≡ stand_key frames.now }
{
    let frame = match frames.innermost() {
        Some(frame) => Some(frame.frame),
        None => None,
    };
    Key {
        frame,
        number: u64::from(frames.level().number()),
    }
}

fn doing_number(doing: &Doing) -> u64
    ensures { result ≡ doing_number doing.now }
{
    match doing {
        Doing::Ready { .. } => 0,
        Doing::Running => 1,
        Doing::Blocked(_) => 2,
        Doing::Gone => 3,
    }
}

/// What the thread is doing; a thread that the script lacks is as at the start.
pub(crate) fn doing(floor: &PlainFloor, thread: ThreadNo) -> Doing
    ensures { result ≡ (facts_at floor.now.lanes thread).doing }
{
    match floor.threads().states().get(usize::from(thread.0)) {
        Some(state) => *state.doing(),
        None => Doing::Ready {
            level: nt_level::Level::PASSIVE,
            status: None,
        },
    }
}

fn number_key(number: u64) -> Key
    ensures { result ≡ record { frame = None; number = number } }
{
    Key {
        frame: None,
        number,
    }
}

/// What is watched is so now.
fn key_of(processors: &Processors, floor: &PlainFloor, watch: &Watch) -> Key
    requires after { AreSound processors.now floor.now.script (view_of floor.now) }
    requires watch { WatchFits processors.now.script watch.now }
    ensures { (past : List Event) →
        AreAfter past processors.now floor.now.script (view_of floor.now) →
        result ≡ key_at processors.now.script watch.now past }
{
    match watch {
        Watch::Stand(p) => stand_key(cpu_of(processors, *p).frames()),
        Watch::Seen(p, class) => {
            number_key(cpu_of(processors, *p).seen().value[usize::from(*class)])
        }
        Watch::Doing(thread) => number_key(doing_number(&doing(floor, *thread))),
    }
}

/// Takes the turn of the event of this number, behind those before it.
fn take(processors: &mut Processors, floor: &mut PlainFloor, events: &Briefs<'_>, number: usize)
    requires after { AreAfter
        (past_at number (events_in events.now.briefs.now events.now.rises.now))
        processors.old floor.old.script (view_of floor.old) }
    requires run { IsRun processors.old.script processors.old.limit
        (reverse (events_in events.now.briefs.now events.now.rises.now)) }
    requires number { number < length events.now.briefs.now }
    ensures after { AreAfter
        (past_at (number + 1) (events_in events.now.briefs.now events.now.rises.now))
        processors.new floor.new.script (view_of floor.new) }
    ensures script { processors.new.script ≡ processors.old.script }
    ensures limit { processors.new.limit ≡ processors.old.limit }
{
    let mut event = no_event();
    let turn = events.turn(number);
    let taken = processors.turn(floor, &turn, &mut event);
    match taken {
        Ok(()) => {}
        Err(_) => unreachable!(),
    }
}

/// Since when it is as it is now, by the event of this number.
fn since_after(before: Key, now: Key, number: u64, since: Option<u64>) -> Option<u64>
    ensures { result ≡ (if same_key before now then since else Some number) }
{
    if is_same(before, now) {
        since
    } else {
        Some(number)
    }
}

/// Takes the turns of the first `end` events over processors and a floor that made none: they are
/// those of a run. Answers the number of the event that made what is watched as it is then; None
/// where it was so from the start.
pub(crate) fn follow(
    processors: &mut Processors,
    floor: &mut PlainFloor,
    events: &Briefs<'_>,
    end: usize,
    watch: &Watch,
) -> Option<u64>
    requires start { AreAfter [] processors.old floor.old.script (view_of floor.old) }
    requires run { IsRun processors.old.script processors.old.limit
        (reverse (events_in events.now.briefs.now events.now.rises.now)) }
    requires end { end ≤ length events.now.briefs.now }
    requires watch { WatchFits processors.old.script watch.now }
    ensures after { AreAfter (past_at end (events_in events.now.briefs.now events.now.rises.now))
        processors.new floor.new.script (view_of floor.new) }
    ensures since { result ≡ since processors.old.script watch.now
        (past_at end (events_in events.now.briefs.now events.now.rises.now)) }
    ensures script { processors.new.script ≡ processors.old.script }
    ensures limit { processors.new.limit ≡ processors.old.limit }
{
    let mut since = None;
    let mut before = key_of(processors, floor, watch);
    for number in 0..end {
        take(processors, floor, events, number);
        let now = key_of(processors, floor, watch);
        since = since_after(before, now, number as u64, since);
        before = now;
    }
    since
}
