//! `audit`: what was pending at each note, and that its workers work at the same time.
use super::gives;
use super::live::{MeetingGate, workers_meet};
use nt_top::Status;
use std::test::Fail;

/// An interrupt queues a DPC and requests another interrupt, in which a word is noted; the DPC
/// queues an APC, in which another one is noted.
const NESTED: &str = "\
    cpus 1\nisr 0 5 r5\nisr 0 9 r9\ndpc d rd\nthread main 0 body\nspecial s main rk\n\
    routine r5\nqueue d\ninterrupt 0 9\nexit\nroutine r9\nnote 9\nexit\nroutine rd\n\
    apc s\nexit\nroutine rk\nnote 1\nexit\nroutine body\ninterrupt 0 5\nexit\n";

/// The DPC is pending at the first note, and nothing at the second.
const NESTED_AUDIT: &str = "note 9 at 6 waiting 1\nnote 1 at 14 waiting 0\nitems 2\n";

#[test]
fn workers_make_one_audit(rt: HostRuntime) -> Result<(), Fail> {
    for workers in ["--workers=1", "--workers=4", "--workers=16"] {
        let words = ["audit", workers];
        assert!(rt; gives(&rt, &words, NESTED.as_bytes(), Status::Ok, NESTED_AUDIT)?);
    }
    Ok(())
}

/// Neither worker does its first item before the other one stands at the gate: they work at once.
#[test]
fn two_workers_meet_at_the_gate(rt: HostRuntime) -> Result<(), Fail> {
    let gate = MeetingGate::before(0);
    assert!(rt; workers_meet(&rt, &["audit", "--workers", "2"], &gate)?);
    Ok(())
}
