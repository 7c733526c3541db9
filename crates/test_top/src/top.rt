//! What no table of cases can make: faults of a source and a sink in memory, words that are no
//! form, the greatest sizes, and the forms from the words in to the bytes out. The programs
//! machine_table and texts_table have the worked rows of the parts.
//!
//! A function owns at most one value that is dropped, and ends once where it does: a test that owns
//! several of them over several calls is expensive to prove.
ghost use Rattle.std.specs.Prelude.{◌<◌, ◌≡◌, false, map, string_bytes};
ghost use Rattle.nt_words.specs.Forms.{names_live};

use nt_outside::{Gate, MemorySink, MemorySource, OpenGate};
use nt_script::split_at;
use nt_top::{Status, ntrun, plain};
use nt_words::USAGE;
use std::alloc::{AllocError, Global};
use std::sync::Wait;
use std::test::Fail;
use std::thread::Threads;

mod auditing;
mod live;
mod locks;
mod shrinking;
mod sizes;
mod verifying;

/// A thread raises the level, inserts a DPC object and lowers the level, and the DPC runs before
/// the thread goes on.
const RAISE_QUEUE_LOWER: &str =
    "cpus 1\ndpc d work\nthread main 0 body\nroutine work\nnote 7\nexit\nroutine body\nraise 2\nqueue d\nlower 0\nexit\n";

/// A DPC that inserts itself again and again.
const SELF_QUEUING: &str =
    "cpus 1\ndpc d again\nthread main 0 body\nroutine again\nqueue d\nexit\nroutine body\nqueue d\nexit\n";

/// What the program answers and writes.
type Found = (Status, Vec<u8>);

/// Puts the words into the list.
fn put_words(given: &mut Vec<String>, alloc: Global, words: &[&str]) -> Result<(), AllocError> {
    for word in words {
        given.push(String::from_str(alloc, word)?)?;
    }
    Ok(())
}

/// What the program answers and writes over this source and this sink, with this gate.
fn found_over<G: Gate + Sync, R: AllocGlobal + Threads + Wait + Sync>(
    rt: &R,
    given: &[String],
    source: &mut MemorySource,
    sink: &mut MemorySink,
    gate: &G,
) -> Result<Found, AllocError> {
    let status = ntrun(rt, rt.alloc(), given, source, sink, gate);
    Ok((status, sink.bytes().to_vec(rt.alloc())?))
}

/// A source of these bytes, whose calls of these numbers fail.
fn source_of(alloc: Global, input: &[u8], fails: &[u64]) -> Result<MemorySource, AllocError> {
    let bytes = input.to_vec(alloc)?;
    Ok(MemorySource::new(bytes, 16, fails.to_vec(alloc)?))
}

/// A sink of so much room, whose calls of these numbers fail.
fn sink_of(alloc: Global, room: usize, fails: &[u64]) -> Result<MemorySink, AllocError> {
    MemorySink::new(alloc, room, 16, fails.to_vec(alloc)?)
}

/// What fails of a source and a sink, and the sink's room.
#[derive(Clone, Copy)]
struct World<'a> {
    source_fails: &'a [u64],
    room: usize,
    sink_fails: &'a [u64],
}

/// Nothing fails, and there is room.
fn sound_world() -> World<'static> {
    World {
        source_fails: &[],
        room: 1_000_000,
        sink_fails: &[],
    }
}

/// What the program answers and writes over this source, into this world's sink.
fn found_from<G: Gate + Sync, R: AllocGlobal + Threads + Wait + Sync>(
    rt: &R,
    given: &[String],
    source: &mut MemorySource,
    world: &World<'_>,
    gate: &G,
) -> Result<Found, AllocError> {
    let mut sink = sink_of(rt.alloc(), world.room, world.sink_fails)?;
    found_over(rt, given, source, &mut sink, gate)
}

/// What the program answers and writes with these words.
fn found_of<G: Gate + Sync, R: AllocGlobal + Threads + Wait + Sync>(
    rt: &R,
    given: &[String],
    input: &[u8],
    world: &World<'_>,
    gate: &G,
) -> Result<Found, AllocError> {
    let mut source = source_of(rt.alloc(), input, world.source_fails)?;
    found_from(rt, given, &mut source, world, gate)
}

/// What the program answers and writes in this world, with this gate.
fn program_at<G: Gate + Sync, R: AllocGlobal + Threads + Wait + Sync>(
    rt: &R,
    words: &[&str],
    input: &[u8],
    world: &World<'_>,
    gate: &G,
) -> Result<Found, AllocError> {
    let mut given = Vec::new(rt.alloc());
    put_words(&mut given, rt.alloc(), words)?;
    found_of(rt, given.as_slice(), input, world, gate)
}

/// What the program answers and writes in this world.
fn program_in<R: AllocGlobal + Threads + Wait + Sync>(
    rt: &R,
    words: &[&str],
    input: &[u8],
    world: &World<'_>,
) -> Result<Found, AllocError> {
    program_at(rt, words, input, world, &OpenGate)
}

/// What the program answers and writes where nothing fails.
fn program<R: AllocGlobal + Threads + Wait + Sync>(
    rt: &R,
    words: &[&str],
    input: &[u8],
) -> Result<Found, AllocError> {
    program_in(rt, words, input, &sound_world())
}

/// Whether the status and the text are these.
fn is_found(found: &Found, status: Status, text: &[u8]) -> bool {
    found.0 == status && found.1.as_slice() == text
}

/// Whether the program with these words answers this status and writes these bytes.
fn gives_bytes<R: AllocGlobal + Threads + Wait + Sync>(
    rt: &R,
    words: &[&str],
    input: &[u8],
    status: Status,
    text: &[u8],
) -> Result<bool, AllocError> {
    let found = program(rt, words, input)?;
    Ok(is_found(&found, status, text))
}

/// Whether the program with these words answers this status and writes this text.
fn gives<R: AllocGlobal + Threads + Wait + Sync>(
    rt: &R,
    words: &[&str],
    input: &[u8],
    status: Status,
    text: &str,
) -> Result<bool, AllocError> {
    gives_bytes(rt, words, input, status, text.as_bytes())
}

#[test]
fn a_script_is_refused(rt: HostRuntime) -> Result<(), Fail> {
    let line = "script line 1: 10 TooMany cpus\n";
    assert!(rt; gives(&rt, &["run"], b"cpus 9\n", Status::Script, line)?);
    Ok(())
}

/// Puts the lines of the round that begins with this event, and answers the insert for the next
/// one.
fn put_round(wanted: &mut String, begin: u32, insert: u32) -> Result<u32, AllocError>
    requires { begin < 10000 }
{
    let call = begin + 1;
    write!(
        wanted,
        "{begin} p0 main 2 begin dpc d of {insert}\n{call} p0 main 2 call {begin} queue d -> yes\n"
    )?;
    if call < 9999 {
        write!(wanted, "{} p0 main 0 end {begin}\n", begin + 2)?;
    }
    Ok(call)
}

/// Puts the report of the DPC that inserts itself until the processor has made 10,000 events.
fn put_rounds(wanted: &mut String) -> Result<(), AllocError> {
    wanted.push_str("report\n0 p0 main 0 switch main\n1 p0 main 0 call 0 queue d -> yes\n")?;
    let mut insert = 1u32;
    for k in 0..3333u32 {
        insert = put_round(wanted, 3 * k + 2, insert)?;
    }
    wanted.push_str("cut p0\nwaits 9999 dpc d\nschedule 10000\nswitch 0 main\n")?;
    for _ in 1..10000 {
        wanted.push_str("next 0\n")?;
    }
    wanted.push_str("done\n")
}

/// Whether that report is written.
fn rounds_are_run<R: AllocGlobal + Threads + Wait + Sync>(rt: &R) -> Result<bool, AllocError> {
    let mut wanted = String::new(rt.alloc());
    put_rounds(&mut wanted)?;
    let input = SELF_QUEUING.as_bytes();
    gives(rt, &["run"], input, Status::Ok, wanted.as_str())
}

/// After the switch and the thread's insert, the DPC begins, inserts itself and ends, until the
/// processor has made 10,000 events.
#[test]
fn ten_thousand_turns(rt: HostRuntime) -> Result<(), Fail> {
    assert!(rt; rounds_are_run(&rt)?);
    Ok(())
}

/// Whether a run in this world answers this status, and this stands in the sink then.
fn runs_in<R: AllocGlobal + Threads + Wait + Sync>(
    rt: &R,
    world: &World<'_>,
    status: Status,
    text: &str,
) -> Result<bool, AllocError> {
    let input = RAISE_QUEUE_LOWER.as_bytes();
    let found = program_in(rt, &["run"], input, world)?;
    Ok(is_found(&found, status, text.as_bytes()))
}

/// What stands in a sink that fails behind its first two calls.
const FRONT: &str = "report\n0 p0 main 0 switch main\n1";

#[test]
fn the_sink_fails_at_its_third_call(rt: HostRuntime) -> Result<(), Fail> {
    let world = World {
        sink_fails: &[2],
        ..sound_world()
    };
    assert!(rt; runs_in(&rt, &world, Status::Write, FRONT)?);
    Ok(())
}

#[test]
fn the_sink_is_full(rt: HostRuntime) -> Result<(), Fail> {
    let world = World {
        room: 32,
        ..sound_world()
    };
    assert!(rt; runs_in(&rt, &world, Status::Write, FRONT)?);
    Ok(())
}

#[test]
fn the_source_fails_at_its_second_call(rt: HostRuntime) -> Result<(), Fail> {
    let world = World {
        source_fails: &[1],
        ..sound_world()
    };
    assert!(rt; runs_in(&rt, &world, Status::Read, "read fault\n")?);
    Ok(())
}

#[test]
fn the_source_and_the_sink_fail(rt: HostRuntime) -> Result<(), Fail> {
    let both = World {
        source_fails: &[0],
        sink_fails: &[0],
        ..sound_world()
    };
    assert!(rt; runs_in(&rt, &both, Status::Write, "")?);
    let later = World {
        source_fails: &[5],
        sink_fails: &[1],
        ..sound_world()
    };
    assert!(rt; runs_in(&rt, &later, Status::Read, "read fault\n")?);
    Ok(())
}

/// A form, what stands in its source, and what it answers and writes where nothing fails.
#[derive(Clone, Copy)]
struct Form<'a> {
    words: &'a [&'a str],
    input: &'a [u8],
    status: Status,
    text: &'a [u8],
}

/// What comes of a form where one call of its source or of its sink fails.
#[derive(Clone, Copy, PartialEq, Eq, Debug)]
enum Outcome {
    /// The fault is told.
    Told,
    /// The call was not made, so nothing failed.
    NotMade,
    /// Something else.
    Other,
}

/// What was found is the fault, or what comes where nothing fails, or something else.
fn came_of(found: &Found, status: Status, told: &[u8], form: &Form<'_>) -> Outcome {
    if is_found(found, status, told) {
        Outcome::Told
    } else if is_found(found, form.status, form.text) {
        Outcome::NotMade
    } else {
        Outcome::Other
    }
}

/// What comes of the form where this call of its source fails.
fn read_fails<R: AllocGlobal + Threads + Wait + Sync>(
    rt: &R,
    form: &Form<'_>,
    call: u16,
) -> Result<Outcome, AllocError> {
    let fails = [u64::from(call)];
    let world = World {
        source_fails: fails.as_slice(),
        ..sound_world()
    };
    let found = program_in(rt, form.words, form.input, &world)?;
    Ok(came_of(&found, Status::Read, b"read fault\n", form))
}

/// What comes of the form where this call of its sink fails: what the calls before it took stands
/// in the sink, 16 bytes each.
fn write_fails<R: AllocGlobal + Threads + Wait + Sync>(
    rt: &R,
    form: &Form<'_>,
    call: u16,
) -> Result<Outcome, AllocError> {
    let fails = [u64::from(call)];
    let world = World {
        sink_fails: fails.as_slice(),
        ..sound_world()
    };
    let found = program_in(rt, form.words, form.input, &world)?;
    let taken = (usize::from(call) * 16).min(form.text.len());
    Ok(came_of(&found, Status::Write, &form.text[..taken], form))
}

/// How many calls of the form's source can fail, each of which is told. None where one is not.
fn failing_reads<R: AllocGlobal + Threads + Wait + Sync>(
    rt: &R,
    form: &Form<'_>,
) -> Result<Option<u16>, AllocError> {
    for call in 0..1000u16 {
        match read_fails(rt, form, call)? {
            Outcome::Told => {}
            Outcome::NotMade => return Ok(Some(call)),
            Outcome::Other => return Ok(None),
        }
    }
    Ok(None)
}

/// How many calls of the form's sink can fail, each of which is told. None where one is not.
fn failing_writes<R: AllocGlobal + Threads + Wait + Sync>(
    rt: &R,
    form: &Form<'_>,
) -> Result<Option<u16>, AllocError> {
    for call in 0..1000u16 {
        match write_fails(rt, form, call)? {
            Outcome::Told => {}
            Outcome::NotMade => return Ok(Some(call)),
            Outcome::Other => return Ok(None),
        }
    }
    Ok(None)
}

/// Whether so many calls of the form's source, and of its sink, can fail, and each is told.
fn fails_each<R: AllocGlobal + Threads + Wait + Sync>(
    rt: &R,
    form: &Form<'_>,
    reads: u16,
    writes: u16,
) -> Result<bool, AllocError> {
    Ok(failing_reads(rt, form)? == Some(reads) && failing_writes(rt, form)? == Some(writes))
}

/// The report of the thread that raises its level and inserts a DPC.
const RAISED_REPORT: &str =
    "report\n0 p0 main 0 switch main\n1 p0 main 2 call 0 raise 2 -> done\n2 p0 main 2 call 0 queue d -> yes\n3 p0 main 0 call 0 lower 0 -> done\n4 p0 main 2 begin dpc d of 2\n5 p0 main 2 call 4 note 7 -> done\n6 p0 main 0 end 4\n7 p0 main 0 clean 2\n8 p0 main 0 end 0\n9 p0 main 0 gone main\n10 p0 - 0 rest\nschedule 10000\nswitch 0 main\nnext 0\nnext 0\nnext 0\nnext 0\nnext 0\nnext 0\nnext 0\nnext 0\nnext 0\nnext 0\ndone\n";

/// Each call moves 16 bytes, and one finds the end of the source.
#[test]
fn each_call_of_a_run_fails(rt: HostRuntime) -> Result<(), Fail> {
    let form = Form {
        words: &["run"],
        input: RAISE_QUEUE_LOWER.as_bytes(),
        status: Status::Ok,
        text: RAISED_REPORT.as_bytes(),
    };
    assert!(rt; fails_each(&rt, &form, 8, 25)?);
    Ok(())
}

#[test]
fn each_call_of_a_refused_script_fails(rt: HostRuntime) -> Result<(), Fail> {
    let form = Form {
        words: &["run"],
        input: b"cpus 9\n",
        status: Status::Script,
        text: b"script line 1: 10 TooMany cpus\n",
    };
    assert!(rt; fails_each(&rt, &form, 2, 2)?);
    Ok(())
}

/// A processor that rests, the schedule of its run, and what `replay` writes of both.
const ONE_TURN: &str = "cpus 1\nroutine q\nexit\nschedule 5\nnext 0\ndone\n";

const ONE_TURN_REPORT: &str = "report\n0 p0 - 0 rest\nschedule 5\nnext 0\ndone\n";

#[test]
fn each_call_of_a_replay_fails(rt: HostRuntime) -> Result<(), Fail> {
    let form = Form {
        words: &["replay"],
        input: ONE_TURN.as_bytes(),
        status: Status::Ok,
        text: ONE_TURN_REPORT.as_bytes(),
    };
    assert!(rt; fails_each(&rt, &form, 4, 3)?);
    Ok(())
}

#[test]
fn each_call_of_a_check_fails(rt: HostRuntime) -> Result<(), Fail> {
    let form = Form {
        words: &["check"],
        input: b"cpus 1\nroutine q\nexit\nreport\n0 p0 - 0 rest\nschedule 5\nnext 0\ndone\n",
        status: Status::Ok,
        text: b"legal\n",
    };
    assert!(rt; fails_each(&rt, &form, 6, 1)?);
    Ok(())
}

#[test]
fn each_call_of_a_load_fails(rt: HostRuntime) -> Result<(), Fail> {
    let form = Form {
        words: &["load", "--seed", "1"],
        input: b"",
        status: Status::Ok,
        text: b"events 7823\ncalls 4096\nrefused 493\nbegins 1100\ncut 0\nwaits 0\n",
    };
    assert!(rt; fails_each(&rt, &form, 0, 4)?);
    Ok(())
}

/// Whether these words are no form. The source, whose first call fails, is not called.
fn is_no_form<R: AllocGlobal + Threads + Wait + Sync>(
    rt: &R,
    words: &[&str],
) -> Result<bool, AllocError> {
    let world = World {
        source_fails: &[0],
        ..sound_world()
    };
    let found = program_in(rt, words, b"cpus 1\n", &world)?;
    Ok(is_found(&found, Status::Usage, USAGE.as_bytes()))
}

/// Words that are no form.
const NO_FORMS: [&[&str]; 8] = [
    &[],
    &["live", "--turns", "0"],
    &["live", "--seed", "1"],
    &["run", "live"],
    &["--help"],
    &["run", "run"],
    &["run", "--turns", "0"],
    &["replay", "--turns", "5"],
];

fn are_no_forms<R: AllocGlobal + Threads + Wait + Sync>(rt: &R) -> Result<bool, AllocError> {
    for words in NO_FORMS {
        if !is_no_form(rt, words)? {
            return Ok(false);
        }
    }
    Ok(true)
}

#[test]
fn other_words_are_no_form(rt: HostRuntime) -> Result<(), Fail> {
    assert!(rt; are_no_forms(&rt)?);
    Ok(())
}

/// What `plain` answers over this source, and what it writes into this sink.
fn plain_over(
    alloc: Global,
    words: &[String],
    source: &mut MemorySource,
    sink: &mut MemorySink,
) -> Result<Found, AllocError>
    requires { names_live (map string_bytes words.now) ≡ false }
{
    let status = plain(alloc, words, source, sink);
    Ok((status, sink.bytes().to_vec(alloc)?))
}

/// What `plain` answers over this source, and what it writes.
fn plain_from(
    alloc: Global,
    words: &[String],
    source: &mut MemorySource,
) -> Result<Found, AllocError>
    requires { names_live (map string_bytes words.now) ≡ false }
{
    let mut sink = sink_of(alloc, 100, &[])?;
    plain_over(alloc, words, source, &mut sink)
}

/// What `plain` answers to a run of this source, and what it writes.
fn plainly(alloc: Global, source: &mut MemorySource) -> Result<Found, AllocError> {
    let words = [String::from_str(alloc, "run")?];
    plain_from(alloc, words.as_slice(), source)
}

/// Whether what stands in this source is refused so.
fn is_refused(
    alloc: Global,
    source: &mut MemorySource,
    status: Status,
    text: &str,
) -> Result<bool, AllocError> {
    let found = plainly(alloc, source)?;
    Ok(is_found(&found, status, text.as_bytes()))
}

/// Whether a line of so many bytes is refused so.
fn line_is_refused(
    alloc: Global,
    length: usize,
    status: Status,
    text: &str,
) -> Result<bool, AllocError> {
    let bytes = vec![in alloc; b'a'; length]?;
    let mut source = MemorySource::new(bytes, 1 << 20, Vec::new(alloc));
    is_refused(alloc, &mut source, status, text)
}

/// One line of as many bytes as an input may have.
#[test]
fn longest_input(rt: HostRuntime) -> Result<(), Fail> {
    let line = "script line 1: 11 NoEnd\n";
    assert!(rt; line_is_refused(rt.alloc(), 33_554_432, Status::Script, line)?);
    Ok(())
}

/// A byte more than an input may have.
#[test]
fn too_long_an_input(rt: HostRuntime) -> Result<(), Fail> {
    let line = "input too long\n";
    assert!(rt; line_is_refused(rt.alloc(), 33_554_433, Status::TooLong, line)?);
    Ok(())
}

/// A thread inserts a DPC for another processor, which rests.
const IDLE_TARGET: &str =
    "cpus 2\ndpc d q\nthread a 0 ra\nroutine ra\ntarget d 1\nqueue d\nexit\nroutine q\nexit\n";

/// Its schedule by the robin rule.
const IDLE_TARGET_SCHEDULE: &str =
    "schedule 10000\nswitch 0 a\nnext 1\nnext 0\nnext 0\nlook 1 2=4\nnext 0\nnext 1\nnext 0\nnext 1\nnext 0\nnext 1\nnext 1\ndone\n";

/// And its report, before the schedule.
const IDLE_TARGET_EVENTS: &str =
    "report\n0 p0 a 0 switch a\n1 p1 - 0 rest\n2 p0 a 0 call 0 target d 1 -> done\n3 p0 a 0 call 0 queue d -> yes\n5 p0 a 0 end 0\n6 p1 - 2 begin dpc d of 3\n7 p0 a 0 gone a\n8 p1 - 0 end 6\n9 p0 - 0 rest\n10 p1 - 0 clean 2\n11 p1 - 0 rest\n";

/// Puts these lines behind a script.
fn put_lines(input: &mut String, lines: &[&str]) -> Result<(), AllocError> {
    for line in lines {
        input.push_str(line)?;
    }
    Ok(())
}

/// Whether `replay` of that script with this schedule behind it answers this status and writes this
/// text.
fn replay_gives<R: AllocGlobal + Threads + Wait + Sync>(
    rt: &R,
    schedule: &str,
    status: Status,
    text: &str,
) -> Result<bool, AllocError> {
    let mut input = String::new(rt.alloc());
    put_lines(&mut input, &[IDLE_TARGET, schedule])?;
    gives(rt, &["replay"], input.as_bytes(), status, text)
}

/// Whether the report of its schedule is written.
fn idle_target_is_replayed<R: AllocGlobal + Threads + Wait + Sync>(
    rt: &R,
) -> Result<bool, AllocError> {
    let mut wanted = String::new(rt.alloc());
    put_lines(&mut wanted, &[IDLE_TARGET_EVENTS, IDLE_TARGET_SCHEDULE])?;
    replay_gives(rt, IDLE_TARGET_SCHEDULE, Status::Ok, wanted.as_str())
}

/// A schedule is replayed: its report is written, with status 0.
#[test]
fn a_schedule_is_replayed(rt: HostRuntime) -> Result<(), Fail> {
    assert!(rt; idle_target_is_replayed(&rt)?);
    Ok(())
}

/// Whether `replay` of that script with each schedule behind it answers this status and writes the
/// line beside it.
fn are_refused<R: AllocGlobal + Threads + Wait + Sync>(
    rt: &R,
    schedules: &[(&str, &str)],
    status: Status,
) -> Result<bool, AllocError> {
    for (schedule, line) in schedules {
        if !replay_gives(rt, schedule, status, line)? {
            return Ok(false);
        }
    }
    Ok(true)
}

/// Schedules whose turns make no settled run; the line tells the place of the turn and why it is
/// refused.
const NO_RUNS: [(&str, &str); 6] = [
    (
        "schedule 10000\nswitch 0 a\nnext 1\nnext 0\nnext 0\nlook 1 2=18446744073709551615\ndone\n",
        "schedule turn 4: 3 BadLook\n",
    ),
    (
        "schedule 10000\nswitch 0 a\nnext 1\nnext 0\ndone\n",
        "schedule turn 3: 5 Unfinished\n",
    ),
    ("schedule 10000\ndone\n", "schedule turn 0: 5 Unfinished\n"),
    (
        "schedule 1\nswitch 0 a\nnext 1\nnext 0\ndone\n",
        "schedule turn 2: 2 NothingToDo\n",
    ),
    (
        "schedule 10000\nnext 2\ndone\n",
        "schedule turn 0: 1 NoSuchCpu\n",
    ),
    (
        "schedule 10000\nswitch 1 a\nnext 2\ndone\n",
        "schedule turn 0: 4 BadChoice\n",
    ),
];

#[test]
fn turns_are_refused(rt: HostRuntime) -> Result<(), Fail> {
    assert!(rt; are_refused(&rt, &NO_RUNS, Status::Schedule)?);
    Ok(())
}

/// Schedules with a bad line, which is numbered in the whole input.
const BAD_LINES: [(&str, &str); 6] = [
    ("schedule 0\ndone\n", "script line 10: 5 BadNumber\n"),
    (
        "schedule 10000\nlook 1 2=0\ndone\n",
        "script line 11: 5 BadNumber\n",
    ),
    (
        "schedule 10000\nlook 1 12=4\ndone\n",
        "script line 11: 5 BadNumber\n",
    ),
    ("schedule 10000\nnext 0\n", "script line 12: 11 NoEnd\n"),
    ("", "script line 10: 11 NoEnd\n"),
    ("isr 0 5 q\nschedule 0\n", "script line 10: 2 UnknownWord\n"),
];

/// Lines of the script are refused first, then lines of the schedule.
#[test]
fn schedules_are_refused(rt: HostRuntime) -> Result<(), Fail> {
    assert!(rt; are_refused(&rt, &BAD_LINES, Status::Script)?);
    Ok(())
}

/// The report of the DPC that inserts itself, where two turns are allowed.
const TWO_TURNS: &str =
    "report\n0 p0 main 0 switch main\n1 p0 main 0 call 0 queue d -> yes\ncut p0\nwaits 1 dpc d\nschedule 2\nswitch 0 main\nnext 0\ndone\n";

/// A turn limit is given in either spelling, before or behind the command.
#[test]
fn a_turn_limit_is_given(rt: HostRuntime) -> Result<(), Fail> {
    let input = SELF_QUEUING.as_bytes();
    assert!(rt; gives(&rt, &["run", "--turns=2"], input, Status::Ok, TWO_TURNS)?);
    assert!(rt; gives(&rt, &["run", "--turns", "2"], input, Status::Ok, TWO_TURNS)?);
    assert!(rt; gives(&rt, &["--turns=2", "run"], input, Status::Ok, TWO_TURNS)?);
    Ok(())
}

/// Puts the schedule part of the report.
fn put_schedule(input: &mut Vec<u8>, report: &[u8]) -> Result<(), AllocError> {
    if report.len() > 65536 {
        return Ok(());
    }
    match split_at(report, "schedule") {
        Some(split) => input.extend_from_slice(&report[split.at.min(report.len())..]),
        None => Ok(()),
    }
}

/// Whether the schedule part of this report, behind its script, is replayed to the same bytes.
fn is_replayed<R: AllocGlobal + Threads + Wait + Sync>(
    rt: &R,
    script: &str,
    report: &[u8],
) -> Result<bool, AllocError> {
    let mut input = script.as_bytes().to_vec(rt.alloc())?;
    put_schedule(&mut input, report)?;
    gives_bytes(rt, &["replay"], input.as_slice(), Status::Ok, report)
}

/// Whether a report was found, whose schedule part is replayed to the same bytes.
fn is_found_again<R: AllocGlobal + Threads + Wait + Sync>(
    rt: &R,
    script: &str,
    found: &Found,
) -> Result<bool, AllocError> {
    Ok(found.0 == Status::Ok && is_replayed(rt, script, found.1.as_slice())?)
}

/// Whether a run's report is replayed.
fn run_is_replayed<R: AllocGlobal + Threads + Wait + Sync>(rt: &R) -> Result<bool, AllocError> {
    let words = ["run", "--turns", "500"];
    let ran = program(rt, &words, SELF_QUEUING.as_bytes())?;
    is_found_again(rt, SELF_QUEUING, &ran)
}

/// The schedule part of a report, behind its script, is replayed to the same bytes.
#[test]
fn a_report_is_replayed(rt: HostRuntime) -> Result<(), Fail> {
    assert!(rt; run_is_replayed(&rt)?);
    Ok(())
}

/// The report of the thread that raises its level and inserts a DPC: its events up to the lowered
/// level, that event, and the others.
const RAISED: &str =
    "report\n0 p0 main 0 switch main\n1 p0 main 2 call 0 raise 2 -> done\n2 p0 main 2 call 0 queue d -> yes\n";

const LOWERED: &str = "3 p0 main 0 call 0 lower 0 -> done\n";

const DELIVERED: &str =
    "4 p0 main 2 begin dpc d of 2\n5 p0 main 2 call 4 note 7 -> done\n6 p0 main 0 end 4\n7 p0 main 0 clean 2\n8 p0 main 0 end 0\n9 p0 main 0 gone main\n";

const RESTED: &str = "10 p0 - 0 rest\n";

const TURNS: &str =
    "schedule 10000\nswitch 0 main\nnext 0\nnext 0\nnext 0\nnext 0\nnext 0\nnext 0\nnext 0\nnext 0\nnext 0\n";

/// Whether `check` of that script with these lines behind it answers this status and writes this
/// text.
fn check_gives<R: AllocGlobal + Threads + Wait + Sync>(
    rt: &R,
    lines: &[&str],
    status: Status,
    text: &str,
) -> Result<bool, AllocError> {
    let mut input = String::from_str(rt.alloc(), RAISE_QUEUE_LOWER)?;
    put_lines(&mut input, lines)?;
    gives(rt, &["check"], input.as_bytes(), status, text)
}

#[test]
fn a_legal_report_is_checked(rt: HostRuntime) -> Result<(), Fail> {
    let lines = [RAISED, LOWERED, DELIVERED, RESTED, TURNS, "next 0\ndone\n"];
    assert!(rt; check_gives(&rt, &lines, Status::Ok, "legal\n")?);
    Ok(())
}

/// The history goes wrong in an event, or is unfinished.
#[test]
fn illegal_reports_are_checked(rt: HostRuntime) -> Result<(), Fail> {
    let higher = "3 p0 main 1 call 0 lower 0 -> done\n";
    let wrong = [RAISED, higher, DELIVERED, RESTED, TURNS, "next 0\ndone\n"];
    assert!(rt; check_gives(&rt, &wrong, Status::Illegal, "illegal at 3\n")?);
    let unfinished = [RAISED, LOWERED, DELIVERED, TURNS, "done\n"];
    assert!(rt; check_gives(&rt, &unfinished, Status::Illegal, "illegal at 10\n")?);
    Ok(())
}

/// The report isn't there, or a line of it is refused.
#[test]
fn reports_are_refused(rt: HostRuntime) -> Result<(), Fail> {
    assert!(rt; check_gives(&rt, &[], Status::Script, "script line 12: 11 NoEnd\n")?);
    let cut = [
        RAISED,
        LOWERED,
        DELIVERED,
        RESTED,
        "cut p0\n",
        TURNS,
        "next 0\ndone\n",
    ];
    assert!(rt; check_gives(&rt, &cut, Status::Script, "script line 24: 12 WrongKind\n")?);
    Ok(())
}

/// Whether these words give this summary of a seed's load. The source, whose first call fails, is
/// not called.
fn load_gives<R: AllocGlobal + Threads + Wait + Sync>(
    rt: &R,
    words: &[&str],
    text: &str,
) -> Result<bool, AllocError> {
    let world = World {
        source_fails: &[0],
        ..sound_world()
    };
    let found = program_in(rt, words, b"", &world)?;
    Ok(is_found(&found, Status::Ok, text.as_bytes()))
}

/// The summary of a seed's load, the same each time.
#[test]
fn a_load_is_summed_up(rt: HostRuntime) -> Result<(), Fail> {
    let wanted = "events 7823\ncalls 4096\nrefused 493\nbegins 1100\ncut 0\nwaits 0\n";
    assert!(rt; load_gives(&rt, &["load", "--seed", "1"], wanted)?);
    assert!(rt; load_gives(&rt, &["--seed=1", "load"], wanted)?);
    Ok(())
}

const NUMBERS: [(Status, u8); 9] = [
    (Status::Ok, 0),
    (Status::Usage, 1),
    (Status::Script, 2),
    (Status::Schedule, 3),
    (Status::Read, 4),
    (Status::Write, 5),
    (Status::Memory, 6),
    (Status::TooLong, 7),
    (Status::Illegal, 8),
];

fn are_numbered() -> bool {
    for (status, number) in NUMBERS {
        if status.number() != number {
            return false;
        }
    }
    true
}

#[test]
fn statuses_have_their_numbers(rt: HostRuntime) {
    assert!(rt; are_numbered());
}
