//! What is left of scripts of the tutorial, and of others that are worked by hand.
ghost use Rattle.std.specs.Prelude.{◌≡◌, ◌*◌, ◌≤◌, reverse, true};
ghost use Rattle.nt_event.specs.declared.limits.TheConstants.{EVENTS, TURNS};
ghost use Rattle.nt_event.specs.Robin.{is_settled};
ghost use Rattle.nt_event.specs.Step.{IsRun};
ghost use Rattle.nt_script.specs.Sound.{IsSound};

use nt_core::run;
use nt_history::History;
use nt_left::{left, print_left};
use nt_script::{Input, read};
use std::alloc::{AllocError, Global};
use std::test::Fail;

/// The lines of what is left of this run of the input's script.
fn told(alloc: Global, input: &Input, history: &History) -> Result<Vec<u8>, AllocError>
    requires sound { IsSound input.now }
    requires turns { history.now.turns ≤ TURNS }
    requires all { input.now.script.cpus * history.now.turns ≤ EVENTS }
    requires run { IsRun input.now.script history.now.turns (reverse history.now.events) }
    requires settled { is_settled input.now.script history.now.turns
        (reverse history.now.events) ≡ true }
{
    let things = left(alloc, &input.script, history)?;
    print_left(alloc, input, things.as_slice())
}

/// The lines of what is left of the script's run with this turn limit.
fn lines_of(alloc: Global, input: &Input, turns: u32) -> Result<Vec<u8>, AllocError>
    requires sound { IsSound input.now }
    requires turns { (1 ≤ turns) × (turns ≤ 100) }
    requires cpus { input.now.script.cpus ≤ 64 }
{
    let history = run(alloc, &input.script, turns)?;
    told(alloc, input, &history)
}

/// Whether these lines are what is left of the run of the input's script with this turn limit.
fn leaves_of(alloc: Global, input: &Input, turns: u32, wanted: &str) -> Result<bool, AllocError>
    requires sound { IsSound input.now }
    requires turns { (1 ≤ turns) × (turns ≤ 100) }
{
    if input.script.cpus > 64 {
        return Ok(false);
    }
    let lines = lines_of(alloc, input, turns)?;
    Ok(lines.as_slice() == wanted.as_bytes())
}

/// Whether these lines are what is left of the script's run with this turn limit.
fn leaves(alloc: Global, text: &str, turns: u32, wanted: &str) -> Result<bool, AllocError> {
    if text.len() > 1000 || turns < 1 || turns > 100 {
        return Ok(false);
    }
    match read(alloc, text.as_bytes()) {
        Ok(input) => {
            let found = leaves_of(alloc, &input, turns, wanted);
            drop(input);
            found
        }
        Err(_) => Ok(false),
    }
}

/// A thread waits in a guarded region for a special APC that is to release it.
const GUARDED_HANG: &str = "cpus 2\n\
thread w 0 waiter\n\
thread x 1 device\n\
special done w complete\n\
routine complete\n\
release w\n\
exit\n\
routine waiter\n\
enterguard\n\
wait kernel plain\n\
leaveguard\n\
note 1\n\
exit\n\
routine device\n\
note 7\n\
note 8\n\
note 9\n\
apc done\n\
exit\n";

#[test]
fn a_guarded_wait_hangs(rt: HostRuntime) -> Result<(), Fail> {
    let wanted = "blocked w wait kernel plain of 4\n\
inside p0 w frame 0 guarded 1\n\
waits 8 apc done as w is blocked in a guarded region\n";
    assert!(rt; leaves(rt.alloc(), GUARDED_HANG, 100, wanted)?);
    Ok(())
}

/// Two timers expire in time; the one with a period is cancelled by its DPC.
const EXPIRED: &str = "cpus 1\n\
dpc d1 c1\n\
dpc d2 c2\n\
timer oneshot d1\n\
timer tick d2\n\
thread main 0 body\n\
routine c1\n\
canceltimer oneshot\n\
exit\n\
routine c2\n\
canceltimer tick\n\
exit\n\
routine body\n\
settimer oneshot 1 0\n\
settimer tick 1 1\n\
clock 1\n\
note 1\n\
clock 5\n\
note 2\n\
exit\n";

#[test]
fn expired_timers_leave_nothing(rt: HostRuntime) -> Result<(), Fail> {
    assert!(rt; leaves(rt.alloc(), EXPIRED, 100, "nothing is left\n")?);
    Ok(())
}

/// A timer with a period expires late, at time 4, by event 6; another one isn't due yet.
const SET: &str = "cpus 1\n\
dpc d1 c1\n\
timer tick d1\n\
timer once -\n\
thread main 0 body\n\
routine c1\n\
exit\n\
routine body\n\
settimer tick 2 3\n\
settimer once 10 0\n\
clock 4\n\
exit\n";

#[test]
fn timers_are_left_set(rt: HostRuntime) -> Result<(), Fail> {
    let wanted = "set tick due 7 period 3 of 6\nset once due 10 of 2\n";
    assert!(rt; leaves(rt.alloc(), SET, 100, wanted)?);
    Ok(())
}

/// A thread queues a DPC at DISPATCH_LEVEL and is cut there, before another one begins.
const CUT: &str = "cpus 1\n\
dpc d work\n\
thread main 0 body\n\
thread other 0 work\n\
routine work\n\
exit\n\
routine body\n\
raise 2\n\
queue d\n\
note 1\n\
note 2\n\
lower 0\n\
exit\n";

#[test]
fn a_cut_processor_leaves_all(rt: HostRuntime) -> Result<(), Fail> {
    let wanted = "cut p0 main frame 0 level 2\n\
unstarted other\n\
raised p0 main frame 0 level 2 above 0\n\
waits 2 dpc d as p0 is cut\n";
    assert!(rt; leaves(rt.alloc(), CUT, 4, wanted)?);
    assert!(rt; leaves(rt.alloc(), CUT, 100, "nothing is left\n")?);
    Ok(())
}

/// Two threads acquire two locks in opposite orders.
const DEADLOCK: &str = "version 2\n\
cpus 2\n\
thread a 0 ra\n\
thread b 1 rb\n\
spinlock i\n\
spinlock j\n\
spinlock k\n\
routine ra\n\
acquire j\n\
acquire k\n\
exit\n\
routine rb\n\
acquire k\n\
acquire j\n\
exit\n";

#[test]
fn processors_spin_still(rt: HostRuntime) -> Result<(), Fail> {
    let wanted = "spins p0 k\n\
spins p1 j\n\
raised p0 a frame 0 level 2 above 0\n\
holds p0 a frame 0 j\n\
raised p1 b frame 1 level 2 above 0\n\
holds p1 b frame 1 k\n";
    assert!(rt; leaves(rt.alloc(), DEADLOCK, 100, wanted)?);
    Ok(())
}

/// A user APC for a thread that waits in kernel mode, and a thread in a delay.
const USER: &str = "cpus 1\n\
thread w 0 waiter\n\
thread x 0 sender\n\
thread y 0 sleeper\n\
user u w k k -\n\
routine k\n\
exit\n\
routine waiter\n\
wait kernel alertable\n\
exit\n\
routine sender\n\
apc u\n\
exit\n\
routine sleeper\n\
delay user plain 5\n\
exit\n";

#[test]
fn a_kernel_wait_takes_no_user_apc(rt: HostRuntime) -> Result<(), Fail> {
    let wanted = "blocked w wait kernel alertable of 1\n\
blocked y delay user plain due 5 of 7\n\
waits 3 apc u as w is in a wait that takes no user APC\n";
    assert!(rt; leaves(rt.alloc(), USER, 100, wanted)?);
    Ok(())
}
