//! Questions about scripts of the tutorial, and each way in which an object isn't pending. The
//! text is worked by hand from their reports.
ghost use Rattle.std.specs.Prelude.{◌≤◌, ◌*◌, reverse};
ghost use Rattle.nt_event.specs.Step.{IsRun};
ghost use Rattle.nt_script.specs.Sound.{IsSound};

use nt_core::run;
use nt_event::limits::{EVENTS, TURNS};
use nt_event::{ApcNo, CpuNo, DpcNo, Level, ThreadNo, TimerNo};
use nt_history::History;
use nt_script::{Input, read};
use nt_text::INPUT_LIMIT;
use nt_why::{Object, Reason, Thing, print_reasons, read_interrupt, why};
use std::alloc::{AllocError, Global};

/// A thread of processor 0 queues DPCs of two importances for processor 1, which is busy.
const OTHER: &str = "cpus 2
dpc med q
dpc high q
thread a 0 ra
thread b 1 rb
routine q
exit
routine ra
target med 1
target high 1
importance high high
queue med
note 1
note 2
note 3
queue high
exit
routine rb
note 11
note 12
note 13
note 14
note 15
note 16
note 17
note 18
note 19
exit
";

/// A special APC that would release a thread which waits in a guarded region.
const HANG: &str = "cpus 2
thread w 0 waiter
thread x 1 device
special done w complete
routine complete
release w
exit
routine waiter
enterguard
wait kernel plain
leaveguard
note 1
exit
routine device
note 7
note 8
note 9
apc done
exit
";

/// What is told of the DPC object `med` of [`OTHER`] after so many events.
const OF_MED: [(u32, &str); 5] = [
    (8, "dpc med was never inserted\n"),
    (
        15,
        "dpc med is queued on p1 since 8: medium, by p0
it is the first of its part
p1 is at level 0 since 1: base b, frame 1
the insert at 8 did not ask for class 2 of p1
* class 2 of p1 isn't asked
* next on p1 comes: call 1 note 17
then: begun at 23
",
    ),
    (
        17,
        "dpc med is queued on p1 since 8: medium, by p0
* behind dpc high, inserted at 16
p1 is at level 0 since 1: base b, frame 1
the insert at 8 did not ask for class 2 of p1
* class 2 of p1 was asked at 16; p1 has not noticed it
* next on p1 comes: call 1 note 18
then: begun at 23
",
    ),
    (
        22,
        "dpc med is queued on p1 since 8: medium, by p0
it is the first of its part
p1 is at level 0 since 21: base b, frame 1
the insert at 8 did not ask for class 2 of p1
class 2 of p1 was asked at 16, noticed at 17
then: begun at 23
",
    ),
    (
        99,
        "dpc med isn't pending: its insert at 8 was begun at 23\n",
    ),
];

/// What is told of the APC object `done` of [`HANG`] after so many events.
const OF_DONE: [(u32, &str); 1] = [(
    13,
    "apc done is inserted for w since 8: special, by p1
it is the first APC of its kind there
* w isn't running on p0: blocked since 4, wait kernel plain, at level 0
* w is in a guarded region
p0 is at level 0 since 4: no routine runs
class 1 of p0 was asked at 8, noticed at 9
* p0 has no next event: it has nothing to do, or is cut
then: waits at the end
",
)];

/// A routine of a device asks for an interrupt of a lower level, which waits for its end.
const DISK: &str = "cpus 1
isr 0 5 disk
isr 0 8 net
dpc diskdpc fin
dpc netdpc fin
thread main 0 body
routine disk
interrupt 0 4
interrupt 0 8
queue diskdpc
exit
routine net
queue netdpc
exit
routine fin
exit
routine body
interrupt 0 5
note 1
exit
";

/// What is told of the interrupt of level 4 of [`DISK`] after so many events.
const OF_FOUR: [(u32, &str); 3] = [
    (
        2,
        "* class 4 of p0 isn't asked
then: begun at 10
",
    ),
    (
        4,
        "* p0 is at level 5 since 2: int 5, frame 2
class 4 of p0 was asked at 3, noticed at 3
* next on p0 comes: call 2 interrupt 0 8
then: begun at 10
",
    ),
    (
        10,
        "p0 is at level 0 since 9: base main, frame 0
class 4 of p0 was asked at 3, noticed at 3
then: begun at 10
",
    ),
];

/// A DPC ends the wait of a thread while another one runs.
const WORKER: &str = "cpus 1
isr 0 5 device
dpc work signal
thread worker 0 slow
thread main 0 body
routine device
queue work
exit
routine signal
release worker
exit
routine slow
wait kernel plain
note 3
exit
routine body
interrupt 0 5
note 1
note 2
exit
";

/// What is told of the thread `worker` of [`WORKER`] after so many events.
const OF_WORKER: [(u32, &str); 5] = [
    (
        0,
        "worker is ready from the start; no thread runs on p0
p0 is at level 0 from the start: no routine runs
then: taken up at 0
",
    ),
    (
        1,
        "worker runs
then: taken up at 15
",
    ),
    (
        3,
        "* worker isn't running on p0: blocked since 1, wait kernel plain, at level 0; main runs
p0 is at level 0 since 2: base main, frame 2
* p0 can't take it up now: the thread isn't ready, or other work comes first
then: taken up at 15
",
    ),
    (
        9,
        "* worker isn't running on p0: ready since 8; main runs
* p0 is at level 2 since 7: dpc work, frame 7
* p0 can't take it up now: the thread isn't ready, or other work comes first
then: taken up at 15
",
    ),
    (
        15,
        "worker is ready since 8; no thread runs on p0
p0 is at level 0 since 14: no routine runs
then: taken up at 15
",
    ),
];

/// What is told of the thread `main` of [`WORKER`] before the first event.
const OF_MAIN: [(u32, &str); 1] = [(
    0,
    "main is ready from the start; no thread runs on p0
the round-robin rule takes up worker first
p0 is at level 0 from the start: no routine runs
then: taken up at 2
",
)];

/// A one-shot timer and a periodic one, each cancelled in the routine of its own DPC.
const TIMERS: &str = "cpus 1
dpc d1 c1
dpc d2 c2
timer oneshot d1
timer tick d2
thread main 0 body
routine c1
canceltimer oneshot
exit
routine c2
canceltimer tick
exit
routine body
settimer oneshot 1 0
settimer tick 1 1
clock 1
note 1
clock 5
note 2
exit
";

/// What is told of the timer `tick` of [`TIMERS`] after so many events.
const OF_TICK: [(u32, &str); 6] = [
    (
        2,
        "timer tick isn't set
then: expires at 8
",
    ),
    (
        3,
        "timer tick is set since 2: due at 1, period 1
* it isn't due yet: the time is 0
* no processor owes a sweep of the timers
then: expires at 8
",
    ),
    (
        5,
        "timer tick is set since 2: due at 1, period 1
it is due: the time is 1
* timer oneshot, set at 1, expires first
* p0 is at level 13 since 4: int 13, frame 4
p0 owes a sweep of the timers
* next on p0 comes: end 4
then: expires at 8
",
    ),
    (
        8,
        "timer tick is set since 2: due at 1, period 1
it is due: the time is 1
p0 is at level 0 since 5: base main, frame 0
p0 owes a sweep of the timers
then: expires at 8
",
    ),
    (
        11,
        "timer tick is set since 8: due at 2, period 1
* it isn't due yet: the time is 1
* p0 is at level 2 since 10: dpc d1, frame 10
p0 owes a sweep of the timers
* next on p0 comes: call 10 canceltimer oneshot
then: does not expire any more
",
    ),
    (
        99,
        "timer tick isn't set; it last expired at 8
then: does not expire any more
",
    ),
];

/// A clock interrupt of processor 1 expires a timer that processor 0 set and does not sweep.
const OTHERS_TIMER: &str = "cpus 2
dpc d r
timer t d
thread a 0 ra
thread b 1 rb
routine r
exit
routine ra
settimer t 1 0
note 1
note 2
note 3
exit
routine rb
note 11
clock 2
note 12
exit
";

/// What is told of the timer of [`OTHERS_TIMER`] after so many events.
const OF_OTHERS: [(u32, &str); 1] = [(
    10,
    "timer t is set since 2: due at 1
it is due: the time is 2
p1 is at level 0 since 9: base b, frame 1
p1 owes a sweep of the timers
then: expires at 11
",
)];

/// Whether these reasons have this text.
fn is_text(
    alloc: Global,
    input: &Input,
    thing: &Thing,
    reasons: &[Reason],
    wanted: &str,
) -> Result<bool, AllocError>
    requires { IsSound input.now }
{
    let text = print_reasons(alloc, input, *thing, reasons)?;
    Ok(text.as_slice() == wanted.as_bytes())
}

/// Whether this is told after the first events of the history.
fn is_told(
    alloc: Global,
    input: &Input,
    history: &History,
    thing: &Thing,
    case: &(u32, &str),
) -> Result<bool, AllocError>
    requires sound { IsSound input.now }
    requires turns { (1 ≤ history.now.turns) × (history.now.turns ≤ TURNS) }
    requires all { input.now.script.cpus * history.now.turns ≤ EVENTS }
    requires run { IsRun input.now.script history.now.turns (reverse history.now.events) }
{
    let reasons = why(alloc, &input.script, history, case.0, *thing)?;
    is_text(alloc, input, thing, reasons.as_slice(), case.1)
}

/// Whether all of this is told of the robin run of a script of at most two processors.
fn are_told(
    alloc: Global,
    input: &Input,
    thing: &Thing,
    cases: &[(u32, &str)],
) -> Result<bool, AllocError>
    requires { IsSound input.now }
{
    if 2 < input.script.cpus {
        return Ok(false);
    }
    let history = run(alloc, &input.script, 10_000)?;
    all_told(alloc, input, &history, thing, cases)
}

/// Whether all of this is told of the history.
fn all_told(
    alloc: Global,
    input: &Input,
    history: &History,
    thing: &Thing,
    cases: &[(u32, &str)],
) -> Result<bool, AllocError>
    requires sound { IsSound input.now }
    requires turns { (1 ≤ history.now.turns) × (history.now.turns ≤ TURNS) }
    requires all { input.now.script.cpus * history.now.turns ≤ EVENTS }
    requires run { IsRun input.now.script history.now.turns (reverse history.now.events) }
{
    for case in cases {
        if !is_told(alloc, input, history, thing, case)? {
            return Ok(false);
        }
    }
    Ok(true)
}

/// Whether all of this is told of the robin run of the script of a text.
fn text_tells(
    alloc: Global,
    text: &str,
    thing: &Thing,
    cases: &[(u32, &str)],
) -> Result<bool, AllocError> {
    if text.len() > INPUT_LIMIT {
        return Ok(false);
    }
    match read(alloc, text.as_bytes()) {
        Ok(input) => {
            let told = are_told(alloc, &input, thing, cases);
            drop(input);
            told
        }
        Err(_) => Ok(false),
    }
}

#[test]
fn a_dpc_of_another_processor(rt: HostRuntime) -> Result<(), AllocError> {
    let told = text_tells(
        rt.alloc(),
        OTHER,
        &Thing::Object(Object::Dpc(DpcNo(0))),
        &OF_MED,
    )?;
    assert!(rt; told);
    Ok(())
}

#[test]
fn an_apc_of_a_guarded_wait(rt: HostRuntime) -> Result<(), AllocError> {
    let told = text_tells(
        rt.alloc(),
        HANG,
        &Thing::Object(Object::Apc(ApcNo(0))),
        &OF_DONE,
    )?;
    assert!(rt; told);
    Ok(())
}

/// Whether two words name an interrupt.
fn is_interrupt(input: &Input, cpu: &str, level: &str) -> bool {
    read_interrupt(input, cpu.as_bytes(), level.as_bytes()).is_some()
}

/// Whether just the words that should name an interrupt of the script do.
fn are_interrupts(input: &Input) -> bool {
    is_interrupt(input, "p0", "4")
        && is_interrupt(input, "0", "4")
        && !is_interrupt(input, "p1", "4")
        && !is_interrupt(input, "p0", "12")
}

/// The same of the script of a text.
fn text_names(alloc: Global, text: &str) -> bool {
    if text.len() > INPUT_LIMIT {
        return false;
    }
    match read(alloc, text.as_bytes()) {
        Ok(input) => {
            let named = are_interrupts(&input);
            drop(input);
            named
        }
        Err(_) => false,
    }
}

#[test]
fn an_interrupt_below_the_level(rt: HostRuntime) -> Result<(), AllocError> {
    let four = Level::new(4).unwrap_or(Level::HIGH);
    let told = text_tells(
        rt.alloc(),
        DISK,
        &Thing::Interrupt(CpuNo(0), four),
        &OF_FOUR,
    )?;
    assert!(rt; told);
    Ok(())
}

#[test]
fn a_thread_that_waits(rt: HostRuntime) -> Result<(), AllocError> {
    let worker = Thing::Thread(ThreadNo(0));
    let told = text_tells(rt.alloc(), WORKER, &worker, &OF_WORKER)?;
    assert!(rt; told);
    Ok(())
}

#[test]
fn a_thread_that_comes_later(rt: HostRuntime) -> Result<(), AllocError> {
    let main = Thing::Thread(ThreadNo(1));
    let told = text_tells(rt.alloc(), WORKER, &main, &OF_MAIN)?;
    assert!(rt; told);
    Ok(())
}

#[test]
fn a_timer_and_its_sweep(rt: HostRuntime) -> Result<(), AllocError> {
    let tick = Thing::Timer(TimerNo(1));
    let told = text_tells(rt.alloc(), TIMERS, &tick, &OF_TICK)?;
    assert!(rt; told);
    Ok(())
}

#[test]
fn a_timer_that_another_processor_expires(rt: HostRuntime) -> Result<(), AllocError> {
    let timer = Thing::Timer(TimerNo(0));
    let told = text_tells(rt.alloc(), OTHERS_TIMER, &timer, &OF_OTHERS)?;
    assert!(rt; told);
    Ok(())
}

#[test]
fn the_words_of_an_interrupt(rt: HostRuntime) {
    assert!(rt; text_names(rt.alloc(), DISK));
}
