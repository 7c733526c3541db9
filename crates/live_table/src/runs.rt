//! Runs on threads.
ghost use Rattle.std.specs.Prelude.{◌≡◌, ◌≤◌, ◌*◌, IsTrue};
ghost use Rattle.nt_event.specs.declared.limits.TheConstants.{EVENTS, TURNS};
ghost use Rattle.nt_event.specs.Script.{fits};

use crate::flags::Flags;
use crate::gates::{Crossing, Following, Meeting, Resting};
use nt_check::{Verdict, check};
use nt_core::{ScheduleRefusal, replay};
use nt_event::{Command, CpuNo, Reply, Script, What};
use nt_history::{Brief, History};
use nt_live::live;
use nt_log::turns_of;
use nt_outside::OpenGate;
use std::alloc::{AllocError, Global};
use std::sync::Wait;
use std::thread::Threads;

/// Processors 0 and 1 meet at a gate before their second events.
pub(crate) fn met<R: Threads + Wait + Sync>(
    rt: &R,
    alloc: Global,
    script: &Script,
    limit: u32,
) -> Result<&'static str, AllocError>
    requires script { IsTrue (fits script.now) }
    requires turns { (1 ≤ limit) × (limit ≤ TURNS) }
    requires all { script.now.cpus * limit ≤ EVENTS }
{
    let flags = Flags::new();
    let ran = live(rt, alloc, script, limit, &Meeting { flags: &flags });
    let met = flags.all_seen();
    drop(flags);
    drop(ran?);
    Ok(if met {
        "both passed at once"
    } else {
        "they didn't meet"
    })
}

/// The place of a processor's event, where that many of its events stand before it.
fn place_of(events: &[Brief], cpu: CpuNo, before: u32) -> Option<usize> {
    let mut left = before;
    for at in 0..events.len() {
        if events[at].cpu == cpu {
            if left == 0 {
                return Some(at);
            }
            left -= 1;
        }
    }
    None
}

/// Whether the second event of processor 0 has a greater number than the fifth of processor 1.
fn is_later(events: &[Brief]) -> bool {
    match (place_of(events, CpuNo(0), 1), place_of(events, CpuNo(1), 4)) {
        (Some(second), Some(fifth)) => fifth < second,
        _ => false,
    }
}

/// What is seen where processor 0 waited for processor 1, and all flags were seen or not.
fn follow_seen(all_seen: bool, history: &History) -> &'static str {
    if !all_seen {
        "it didn't see the other"
    } else if is_later(history.lend().briefs) {
        "its second event is behind the other's fifth"
    } else {
        "its second event is before the other's fifth"
    }
}

/// Processor 0 waits at a gate before its second event until processor 1 made its fifth.
pub(crate) fn followed<R: Threads + Wait + Sync>(
    rt: &R,
    alloc: Global,
    script: &Script,
    limit: u32,
) -> Result<&'static str, AllocError>
    requires script { IsTrue (fits script.now) }
    requires turns { (1 ≤ limit) × (limit ≤ TURNS) }
    requires all { script.now.cpus * limit ≤ EVENTS }
{
    let flags = Flags::new();
    let ran = live(rt, alloc, script, limit, &Following { flags: &flags });
    let all_seen = flags.all_seen();
    drop(flags);
    let history = ran?;
    let seen = follow_seen(all_seen, &history);
    drop(history);
    Ok(seen)
}

/// Processor 0 asks processor 1 for something when processor 1 rests, and has nothing more to do in
/// that round.
pub(crate) fn woken<R: Threads + Wait + Sync>(
    rt: &R,
    alloc: Global,
    script: &Script,
    limit: u32,
) -> Result<&'static str, AllocError>
    requires script { IsTrue (fits script.now) }
    requires turns { (1 ≤ limit) × (limit ≤ TURNS) }
    requires all { script.now.cpus * limit ≤ EVENTS }
{
    let flags = Flags::new();
    let ran = live(rt, alloc, script, limit, &Resting { flags: &flags });
    let woke = flags.second.is_set();
    drop(flags);
    drop(ran?);
    Ok(if woke {
        "it worked in a later round"
    } else {
        "it didn't work again"
    })
}

/// Whether the last event of the processor is an acquire that spins.
fn spins_at_last(history: &History, cpu: CpuNo) -> bool {
    let events = history.lend();
    let mut spins = false;
    for at in 0..events.briefs.len() {
        if events.briefs[at].cpu == cpu {
            spins = matches!(
                events.event(at).what,
                What::Call {
                    command: Command::Acquire(_),
                    reply: Reply::Spin,
                    ..
                }
            );
        }
    }
    spins
}

/// What is seen where each had a lock that the other wanted, and all flags were seen or not.
fn cross_seen(all_seen: bool, history: &History) -> &'static str {
    if !all_seen {
        "they didn't meet"
    } else if spins_at_last(history, CpuNo(0)) && spins_at_last(history, CpuNo(1)) {
        "both spin still"
    } else {
        "one of them got on"
    }
}

/// Processors 0 and 1 meet at a gate before their third events, where each has a lock that the
/// other wants.
pub(crate) fn crossed<R: Threads + Wait + Sync>(
    rt: &R,
    alloc: Global,
    script: &Script,
    limit: u32,
) -> Result<&'static str, AllocError>
    requires script { IsTrue (fits script.now) }
    requires turns { (1 ≤ limit) × (limit ≤ TURNS) }
    requires all { script.now.cpus * limit ≤ EVENTS }
{
    let flags = Flags::new();
    let ran = live(rt, alloc, script, limit, &Crossing { flags: &flags });
    let all_seen = flags.all_seen();
    drop(flags);
    let history = ran?;
    let seen = cross_seen(all_seen, &history);
    drop(history);
    Ok(seen)
}

/// Whether the histories have the same events, in all their fields.
fn have_same_events(one: &History, other: &History) -> bool {
    let one = one.lend();
    let other = other.lend();
    if one.briefs.len() != other.briefs.len() {
        return false;
    }
    for at in 0..one.briefs.len() {
        if one.event(at) != other.event(at) {
            return false;
        }
    }
    true
}

/// What is seen of a history that the turns of another one gave.
fn replay_seen(
    again: Result<History, ScheduleRefusal>,
    history: &History,
) -> Result<&'static str, AllocError> {
    match again {
        Ok(again) => {
            let same = have_same_events(&again, history);
            drop(again);
            Ok(if same {
                "legal, and its turns give it again"
            } else {
                "its turns give another history"
            })
        }
        Err(ScheduleRefusal::Bad { .. }) => Ok("its turns are refused"),
        Err(ScheduleRefusal::NoMemory) => Err(AllocError),
    }
}

/// Whether the turns of a history give it again.
fn replayed(alloc: Global, script: &Script, history: &History) -> Result<&'static str, AllocError>
    requires script { IsTrue (fits script.now) }
    requires turns { (1 ≤ history.now.turns) × (history.now.turns ≤ TURNS) }
    requires all { script.now.cpus * history.now.turns ≤ EVENTS }
{
    let schedule = turns_of(alloc, history)?;
    let again = replay(alloc, script, history.turns(), &schedule.list);
    drop(schedule);
    replay_seen(again, history)
}

/// Whether a history is legal, and its turns give it again.
pub(crate) fn judged(
    alloc: Global,
    script: &Script,
    history: &History,
) -> Result<&'static str, AllocError>
    requires script { IsTrue (fits script.now) }
    requires turns { (1 ≤ history.now.turns) × (history.now.turns ≤ TURNS) }
    requires all { script.now.cpus * history.now.turns ≤ EVENTS }
{
    match check(alloc, script, history)? {
        Verdict::Legal => replayed(alloc, script, history),
        Verdict::IllegalAt(_) => Ok("illegal"),
    }
}

/// The processors run on threads.
pub(crate) fn lived<R: Threads + Wait + Sync>(
    rt: &R,
    alloc: Global,
    script: &Script,
    limit: u32,
) -> Result<&'static str, AllocError>
    requires script { IsTrue (fits script.now) }
    requires turns { (1 ≤ limit) × (limit ≤ TURNS) }
    requires all { script.now.cpus * limit ≤ EVENTS }
{
    let history = live(rt, alloc, script, limit, &OpenGate)?;
    let seen = judged(alloc, script, &history);
    drop(history);
    seen
}
