//! `live`: its reports, its refusals, and that its processors turn in workers which wait for one
//! another at the gate.

use super::{
    Form, Found, IDLE_TARGET, RAISE_QUEUE_LOWER, RAISED_REPORT, SELF_QUEUING, World, fails_each,
    gives, is_found, is_found_again, program, program_at, program_in, put_words, sound_world,
};
use nt_outside::Gate;
use nt_top::{Status, is_live};
use std::alloc::{AllocError, Global};
use std::sync::Wait;
use std::sync::atomic::{AtomicU64, Ordering};
use std::test::Fail;
use std::thread::Threads;

/// Whether this report, behind its script, is called legal.
fn is_legal<R: AllocGlobal + Threads + Wait + Sync>(
    rt: &R,
    script: &str,
    report: &[u8],
) -> Result<bool, AllocError> {
    let mut input = script.as_bytes().to_vec(rt.alloc())?;
    input.extend_from_slice(report)?;
    gives(rt, &["check"], input.as_slice(), Status::Ok, "legal\n")
}

/// Whether a report of the script was found that is called legal, and replayed to the same bytes.
fn is_report_of<R: AllocGlobal + Threads + Wait + Sync>(
    rt: &R,
    script: &str,
    found: &Found,
) -> Result<bool, AllocError> {
    Ok(is_found_again(rt, script, found)? && is_legal(rt, script, found.1.as_slice())?)
}

/// Whether the words, which are the form `live`, write a report of the script that is called legal
/// and replayed to the same bytes.
fn is_reported<R: AllocGlobal + Threads + Wait + Sync>(
    rt: &R,
    words: &[&str],
    script: &str,
) -> Result<bool, AllocError> {
    let found = program(rt, words, script.as_bytes())?;
    is_report_of(rt, script, &found)
}

#[test]
fn live_writes_reports_of_runs(rt: HostRuntime) -> Result<(), Fail> {
    assert!(rt; is_reported(&rt, &["live"], RAISE_QUEUE_LOWER)?);
    assert!(rt; is_reported(&rt, &["live"], IDLE_TARGET)?);
    assert!(rt; is_reported(&rt, &["live"], TWO_NOTERS)?);
    assert!(rt; is_reported(&rt, &["--turns=500", "live"], SELF_QUEUING)?);
    Ok(())
}

/// A driver in ordinary use: a thread asks and waits with a time limit, a device interrupts, and
/// its DPC cancels the limit, queues an APC for the thread and releases it.
const DRIVER_IN_USE: &str =
    "cpus 2\nisr 0 5 isr5\ndpc d finish\ndpc late expired\ntimer limit late\nthread req 1 request\nthread dev 0 device\nspecial complete req completed\nroutine isr5\nqueue d\nexit\nroutine finish\napc complete\ncanceltimer limit\nrelease req\nexit\nroutine expired\nnote 99\nexit\nroutine request\nsettimer limit 100 0\nwait kernel plain\nnote 1\nexit\nroutine completed\nnote 2\nexit\nroutine device\ntarget d 1\ninterrupt 0 5\nclock 5\nexit\n";

#[test]
fn live_reports_a_driver_in_use(rt: HostRuntime) -> Result<(), Fail> {
    assert!(rt; is_reported(&rt, &["live"], DRIVER_IN_USE)?);
    Ok(())
}

/// Whether a fault of the source is told.
fn read_fault_is_told<R: AllocGlobal + Threads + Wait + Sync>(rt: &R) -> Result<bool, AllocError> {
    let world = World {
        source_fails: &[1],
        ..sound_world()
    };
    let found = program_in(rt, &["live"], IDLE_TARGET.as_bytes(), &world)?;
    Ok(is_found(&found, Status::Read, b"read fault\n"))
}

/// A script is refused as `run` refuses it, and a fault of the source is told.
#[test]
fn live_refuses_as_run_does(rt: HostRuntime) -> Result<(), Fail> {
    let line = "script line 1: 10 TooMany cpus\n";
    assert!(rt; gives(&rt, &["live"], b"cpus 9\n", Status::Script, line)?);
    assert!(rt; read_fault_is_told(&rt)?);
    Ok(())
}

/// Each call of the source and of the sink fails in turn. One processor makes the one run that
/// there is.
#[test]
fn each_call_of_a_live_run_fails(rt: HostRuntime) -> Result<(), Fail> {
    let form = Form {
        words: &["live"],
        input: RAISE_QUEUE_LOWER.as_bytes(),
        status: Status::Ok,
        text: RAISED_REPORT.as_bytes(),
    };
    assert!(rt; fails_each(&rt, &form, 8, 25)?);
    Ok(())
}

/// Whether these words are the form `live`, or another one that runs in threads.
fn are_live(alloc: Global, words: &[&str]) -> Result<bool, AllocError> {
    let mut given = Vec::new(alloc);
    put_words(&mut given, alloc, words)?;
    Ok(is_live(given.as_slice()))
}

#[test]
fn words_are_live(rt: HostRuntime) -> Result<(), Fail> {
    assert!(rt; are_live(rt.alloc(), &["--turns=5", "live"])?);
    assert!(rt; !are_live(rt.alloc(), &["--turns=5"])?);
    Ok(())
}

/// Two processors, and on each a thread that makes four calls.
const TWO_NOTERS: &str =
    "cpus 2\nthread a 0 ra\nthread b 1 rb\nroutine ra\nnote 1\nnote 2\nnote 3\nnote 4\nexit\nroutine rb\nnote 5\nnote 6\nnote 7\nnote 8\nexit\n";

/// The call of the second event of processor 0, and that of the fifth event of processor 1.
const SECOND: &[u8] = b"note 1 -> done";

const FIFTH: &[u8] = b"note 8 -> done";

/// How often a flag is looked at, at most.
const LOOKS: u32 = 100_000_000;

/// Whether the flag is set at one of so many looks.
fn is_seen(flag: &AtomicU64) -> bool {
    for _ in 0..LOOKS {
        if flag.load(Ordering::SeqCst) == 1 {
            return true;
        }
    }
    false
}

/// Looks for the flag, and notes a look that never succeeds.
fn look_for(flag: &AtomicU64, missed: &AtomicU64) {
    if !is_seen(flag) {
        missed.store(1, Ordering::SeqCst);
    }
}

/// A gate at which two workers meet: each, with so much done, sets its flag and looks for the
/// other one.
#[derive(Drop)]
pub(super) struct MeetingGate {
    own: u64,
    first: AtomicU64,
    second: AtomicU64,
    missed: AtomicU64,
}

impl MeetingGate {
    /// A gate at which they meet with so much done.
    pub(super) fn before(own: u64) -> MeetingGate {
        MeetingGate {
            own,
            first: AtomicU64::new(0),
            second: AtomicU64::new(0),
            missed: AtomicU64::new(0),
        }
    }

    /// Whether both came, and each saw the other one.
    fn is_met(&self) -> bool {
        self.first.load(Ordering::SeqCst) == 1
            && self.second.load(Ordering::SeqCst) == 1
            && self.missed.load(Ordering::SeqCst) == 0
    }
}

impl Gate for MeetingGate {
    fn pass(&self, cpu: u8, own: u64) {
        if cpu == 0 && own == self.own {
            self.first.store(1, Ordering::SeqCst);
            look_for(&self.second, &self.missed);
        }
        if cpu == 1 && own == self.own {
            self.second.store(1, Ordering::SeqCst);
            look_for(&self.first, &self.missed);
        }
    }
}

/// A gate at which processor 0, with one event made, waits until processor 1 has made five.
#[derive(Drop)]
struct OrderGate {
    behind: AtomicU64,
    missed: AtomicU64,
}

impl Gate for OrderGate {
    fn pass(&self, cpu: u8, own: u64) {
        if cpu == 0 && own == 1 {
            look_for(&self.behind, &self.missed);
        }
        if cpu == 1 && own == 5 {
            self.behind.store(1, Ordering::SeqCst);
        }
    }
}

/// What these words answer and write over the script with this gate.
fn program_with<G: Gate + Sync, R: AllocGlobal + Threads + Wait + Sync>(
    rt: &R,
    words: &[&str],
    script: &str,
    gate: &G,
) -> Result<Found, AllocError> {
    program_at(rt, words, script.as_bytes(), &sound_world(), gate)
}

/// Whether these words run two workers, of which each waits at the gate until the other one stands
/// there.
pub(super) fn workers_meet<R: AllocGlobal + Threads + Wait + Sync>(
    rt: &R,
    words: &[&str],
    gate: &MeetingGate,
) -> Result<bool, AllocError> {
    let found = program_with(rt, words, TWO_NOTERS, gate)?;
    Ok(found.0 == Status::Ok && gate.is_met())
}

/// Neither processor passes the gate before the other one stands there: they turn in workers that
/// run at once.
#[test]
fn two_processors_meet_at_the_gate(rt: HostRuntime) -> Result<(), Fail> {
    let gate = MeetingGate::before(1);
    assert!(rt; workers_meet(&rt, &["live"], &gate)?);
    Ok(())
}

/// Where a piece stands in a report.
fn place_of(report: &[u8], piece: &[u8]) -> Option<usize> {
    (0..report.len()).find(|place| report[*place..].starts_with(piece))
}

/// Whether the fifth event of processor 1 stands before the second one of processor 0.
fn is_turned(report: &[u8]) -> bool {
    let second = place_of(report, SECOND);
    let fifth = place_of(report, FIFTH);
    fifth.is_some() && fifth < second
}

/// Whether the report keeps that order, and processor 0 saw at the gate what it waited for.
fn keeps_the_order<R: AllocGlobal + Threads + Wait + Sync>(
    rt: &R,
    gate: &OrderGate,
) -> Result<bool, AllocError> {
    let found = program_with(rt, &["live"], TWO_NOTERS, gate)?;
    let is_seen = gate.missed.load(Ordering::SeqCst) == 0;
    Ok(found.0 == Status::Ok && is_seen && is_turned(found.1.as_slice()))
}

/// The report is that of the workers' history: processor 0, which the gate holds up, makes its
/// second event behind the fifth one of processor 1. By the robin rule it comes before it.
#[test]
fn the_report_keeps_the_order_of_the_gate(rt: HostRuntime) -> Result<(), Fail> {
    let gate = OrderGate {
        behind: AtomicU64::new(0),
        missed: AtomicU64::new(0),
    };
    assert!(rt; keeps_the_order(&rt, &gate)?);
    Ok(())
}
