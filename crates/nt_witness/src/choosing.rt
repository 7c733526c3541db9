//! The turn limit of a witness, and its schedule.
ghost use Rattle.std.specs.Prelude.{◌≡◌, ◌<◌, ◌≤◌, ◌^◌, ◌↔◌, [], IfOk, IfSome, IsTrue, List, None};
ghost use Rattle.std.specs.Prelude.{false, max, true};
ghost use Rattle.nt_event.specs.declared.events.Event.{Event as TheEvent};
ghost use Rattle.nt_event.specs.Script.{fits};
ghost use Rattle.nt_log.specs.Schedules.{turn_bound as bound_of};
ghost use Rattle.nt_witness.specs.Leads.{Lead};
ghost use Rattle.nt_witness.specs.Limits.{least_limit as least_in, most_of as most_in, serves};
ghost use Rattle.nt_witness.specs.Limits.{usual_limit as usual_in, witness_limit};
ghost use Rattle.nt_witness.specs.Witnesses.{IsCompleted, IsWitness, witness_of};

use crate::completing::completed;
use crate::counting::{most_of, some_is_cut};
use nt_event::limits::USUAL_TURNS;
use nt_event::{Script, Turn};
use nt_history::History;
use nt_log::{Schedule, turn_bound, turns_of};
use std::alloc::{AllocError, Global};

/// The least turn limit that has room for turns, of which one processor takes this many at most.
fn least_limit(most: usize) -> u32
    requires { most < 2 ^ 32 }
    ensures { result ≡ max 1 most }
{
    (most as u32).max(1)
}

/// The turn limit of a run of the script where none is given.
fn usual_limit(script: &Script) -> u32
    ensures { result ≡ usual_in script.now }
{
    USUAL_TURNS.min(turn_bound(script.cpus))
}

/// The completed run at this limit, where that has room for the turns and no processor is cut.
fn uncut(
    alloc: Global,
    script: &Script,
    turns: &[Turn],
    most: usize,
    limit: u32,
) -> Result<Option<History>, AllocError>
    requires fits { IsTrue (fits script.now) }
    requires most { most ≡ most_in turns.now }
    requires limit { (1 ≤ limit) × (limit ≤ bound_of script.now.cpus) }
    ensures completed { IfOk result (λ o.
        IfSome o (λ r. IsCompleted script.now turns.now limit r)) }
    ensures some { IfOk result (λ o. IfSome o (λ _r. (h : List TheEvent) →
        Lead script.now turns.now [] h → serves script.now turns.now h limit ≡ true)) }
    ensures none { IfOk result (λ o. o ≡ None → (h : List TheEvent) →
        Lead script.now turns.now [] h → serves script.now turns.now h limit ≡ false) }
{
    if (limit as usize) < most {
        return Ok(None);
    }
    let history = completed(alloc, script, turns, limit)?;
    if some_is_cut(script, &history) {
        return Ok(None);
    }
    Ok(Some(history))
}

/// The completed run where it may end with no processor cut.
fn ending(
    alloc: Global,
    script: &Script,
    turns: &[Turn],
    most: usize,
) -> Result<History, AllocError>
    requires fits { IsTrue (fits script.now) }
    requires most { most ≡ most_in turns.now }
    requires room { most ≤ bound_of script.now.cpus }
    ensures completed { IfOk result (λ r. IsCompleted script.now turns.now r.turns r) }
    ensures limit { IfOk result (λ r. (h : List TheEvent) → Lead script.now turns.now [] h →
        r.turns ≡ witness_limit script.now false turns.now h) }
{
    let usual = usual_limit(script);
    let greatest = turn_bound(script.cpus);
    if let Some(history) = uncut(alloc, script, turns, most, usual)? {
        return Ok(history);
    }
    // Of more than 8 processors they are the same.
    if usual < greatest {
        if let Some(history) = uncut(alloc, script, turns, most, greatest)? {
            return Ok(history);
        }
    }
    completed(alloc, script, turns, least_limit(most))
}

/// The completed run.
fn run_of(
    alloc: Global,
    script: &Script,
    turns: &[Turn],
    most: usize,
    endless: bool,
) -> Result<History, AllocError>
    requires fits { IsTrue (fits script.now) }
    requires most { most ≡ most_in turns.now }
    requires room { most ≤ bound_of script.now.cpus }
    ensures completed { IfOk result (λ r. IsCompleted script.now turns.now r.turns r) }
    ensures limit { IfOk result (λ r. (h : List TheEvent) → Lead script.now turns.now [] h →
        r.turns ≡ witness_limit script.now endless turns.now h) }
{
    if endless {
        completed(alloc, script, turns, least_limit(most))
    } else {
        ending(alloc, script, turns, most)
    }
}

/// The schedule of a settled run that begins with these turns: after them the robin rule goes on to
/// the end. None exactly where one processor takes more of them than the greatest turn limit. An
/// error is want of memory.
///
/// The script fits, and where no processor is cut the turns lead to some history. The turn limit of
/// the run is the usual one, 10,000 or the greatest one where that is less, if the turns have room
/// and the run then ends with no processor cut; else the greatest one, if that does; else the least
/// one that has room for the turns. Where `endless` is set, it is the least one at once: that a run
/// need not end is shown by one that is cut. Profile.
pub fn witness(
    alloc: Global,
    script: &Script,
    turns: &[Turn],
    endless: bool,
) -> Result<Option<Schedule>, AllocError>
    requires fits { IsTrue (fits script.now) }
    requires lead { (h : List TheEvent) × Lead script.now turns.now [] h }
    ensures some { IfOk result (λ o. IfSome o (λ w. (h : List TheEvent) →
        Lead script.now turns.now [] h → IsWitness script.now h w)) }
    ensures rule { IfOk result (λ o. IfSome o (λ w. (h : List TheEvent) →
        Lead script.now turns.now [] h → w ≡ witness_of script.now endless turns.now h)) }
    ensures cut { IfOk result (λ o. IfSome o (λ w.
        IsTrue endless → w.turns ≡ least_in turns.now)) }
    ensures none { IfOk result (λ o.
        (o ≡ None) ↔ (bound_of script.now.cpus < most_in turns.now)) }
{
    let most = most_of(turns);
    if (turn_bound(script.cpus) as usize) < most {
        return Ok(None);
    }
    let history = run_of(alloc, script, turns, most, endless)?;
    let schedule = turns_of(alloc, &history)?;
    Ok(Some(schedule))
}
