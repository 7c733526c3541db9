//! Whole answers over sources and sinks in memory: small scripts whose states are counted by hand,
//! runs of them, and what is refused.
//!
//! A function owns at most one value that is dropped, and ends once where it does.
use nt_bench::{Status, ntlab, starved, unopened};
use nt_lab_words::USAGE;
use nt_outside::{MemorySink, MemorySource};
use std::alloc::{AllocError, Global};
use std::test::Fail;

/// A thread raises the level, inserts a DPC object and lowers the level, and the DPC runs before
/// the thread goes on. There is one way to go on from each state.
const RAISE_QUEUE_LOWER: &str = "\
    cpus 1\ndpc d work\nthread main 0 body\nroutine work\nnote 7\nexit\n\
    routine body\nraise 2\nqueue d\nlower 0\nexit\n";

/// A DPC that inserts itself again and again. Its states are those after no event, the switch, the
/// insert, the begin and the second insert; the end of the DPC leads back to the third.
const SELF_QUEUING: &str = "\
    cpus 1\ndpc d again\nthread main 0 body\nroutine again\nqueue d\nexit\n\
    routine body\nqueue d\nexit\n";

/// A DPC that lets the clock go on and inserts itself again. Time is part of a state, so each event
/// leads to a new one.
const ENDLESS_CLOCK: &str = "\
    cpus 1\ndpc d again\nthread main 0 body\nroutine again\nclock 1\nqueue d\nexit\n\
    routine body\nqueue d\nexit\n";

/// Worked examples, as in crates/machine_table/data: a DPC that is raised above, a DPC without a
/// target on two processors, and a driver in use.
const RAISED: &str = "\
    cpus 1\ndpc work run\nthread main 0 body\nroutine run\nnote 7\nexit\nroutine body\n\
    raise 2\nqueue work\nnote 1\nlower 0\nnote 2\nexit\n";

/// What holds the DPC of the first of them back while its thread is at DISPATCH_LEVEL, and what is
/// told of it once the thread has lowered the level.
const WORK_AFTER_3: &str = "\
    dpc work is queued on p0 since 2: medium, by p0\nit is the first of its part\n\
    * p0 is at level 2 since 1: base main, frame 0\n\
    class 2 of p0 was asked at 2, noticed at 2\n\
    * next on p0 comes: call 0 note 1\nthen: begun at 5\n";

const WORK_AFTER_5: &str = "\
    dpc work is queued on p0 since 2: medium, by p0\nit is the first of its part\n\
    p0 is at level 0 since 4: base main, frame 0\n\
    class 2 of p0 was asked at 2, noticed at 2\nthen: begun at 5\n";

const TWO_CPUS: &str = "\
    cpus 2\ndpc work run\nthread a 0 ra\nthread b 1 rb\nroutine run\nnote 1\nnote 2\n\
    note 3\nnote 4\nexit\nroutine ra\nqueue work\nexit\nroutine rb\nnote 8\nnote 9\n\
    queue work\nexit\n";

const WHOLE_REQUEST: &str = "\
    cpus 2\nisr 0 5 device\ndpc done finish\ndpc late expired\ntimer limit late\n\
    thread app 1 request\nspecial complete app signal\nroutine device\nqueue done\nexit\n\
    routine finish\ncanceltimer limit\napc complete\nexit\nroutine expired\nnote 99\nexit\n\
    routine signal\nrelease app\nexit\nroutine request\nsettimer limit 100 0\n\
    interrupt 0 5\nwait kernel plain\nnote 1\nexit\n";

/// What the program answers, and writes on both of its outputs.
type Found = (Status, Vec<u8>, Vec<u8>);

/// What the program answers and writes over these.
fn found_over(
    alloc: Global,
    given: &[String],
    source: &mut MemorySource,
    out: &mut MemorySink,
    err: &mut MemorySink,
) -> Result<Found, AllocError> {
    let status = ntlab(alloc, given, source, out, err);
    Ok((
        status,
        out.bytes().to_vec(alloc)?,
        err.bytes().to_vec(alloc)?,
    ))
}

/// The same over this output and a new one.
fn found_into(
    alloc: Global,
    given: &[String],
    source: &mut MemorySource,
    out: &mut MemorySink,
) -> Result<Found, AllocError> {
    let mut err = MemorySink::new(alloc, 1_000_000, 16, Vec::new(alloc))?;
    found_over(alloc, given, source, out, &mut err)
}

/// The same over two new ones.
fn found_from(
    alloc: Global,
    given: &[String],
    source: &mut MemorySource,
) -> Result<Found, AllocError> {
    let mut out = MemorySink::new(alloc, 1_000_000, 16, Vec::new(alloc))?;
    found_into(alloc, given, source, &mut out)
}

/// The same of these bytes.
fn found_of(alloc: Global, given: &[String], input: &[u8]) -> Result<Found, AllocError> {
    let mut source = MemorySource::new(input.to_vec(alloc)?, 16, Vec::new(alloc));
    found_from(alloc, given, &mut source)
}

/// Puts the words into the list.
fn put_words(given: &mut Vec<String>, alloc: Global, words: &[&str]) -> Result<(), AllocError> {
    for word in words {
        given.push(String::from_str(alloc, word)?)?;
    }
    Ok(())
}

/// What the program answers and writes by these words.
fn program(alloc: Global, words: &[&str], input: &[u8]) -> Result<Found, AllocError> {
    let mut given = Vec::new(alloc);
    put_words(&mut given, alloc, words)?;
    found_of(alloc, given.as_slice(), input)
}

/// Whether the program answers this status and writes this text, and on standard error nothing.
fn gives(
    alloc: Global,
    words: &[&str],
    input: &[u8],
    status: Status,
    text: &str,
) -> Result<bool, AllocError> {
    let found = program(alloc, words, input)?;
    Ok(found.0 == status && found.1.as_slice() == text.as_bytes() && found.2.is_empty())
}

/// Whether by these words, of a script with these expectations, this is answered.
fn gives_of(
    alloc: Global,
    words: &[&str],
    script: &str,
    expected: &str,
    status: Status,
    text: &str,
) -> Result<bool, AllocError> {
    let mut input = script.as_bytes().to_vec(alloc)?;
    input.extend_from_slice(expected.as_bytes())?;
    gives(alloc, words, input.as_slice(), status, text)
}

/// Whether of a script with these expectations this is answered.
fn answers(
    alloc: Global,
    script: &str,
    expected: &str,
    status: Status,
    text: &str,
) -> Result<bool, AllocError> {
    gives_of(alloc, &["ask"], script, expected, status, text)
}

#[test]
fn each_expectation_has_its_line(rt: HostRuntime) -> Result<(), Fail> {
    assert!(rt;
        answers(
            rt.alloc(),
            RAISE_QUEUE_LOWER,
            "expect\nnever begin dpc d before call queue d -> yes\nalways note 7\n\
        never note 7 above 1\nalways ends\ndone\n",
            Status::Fails,
            "states 12 edges 11\n1 never begin dpc d before call queue d -> yes: holds\n\
        2 always note 7: holds\n3 never note 7 above 1: fails at 5\n\
        4 always ends: holds within 11\n",
        )?
    );
    assert!(rt;
        answers(
            rt.alloc(),
            SELF_QUEUING,
            "expect\nnever refused\ndone\n",
            Status::Ok,
            "states 5 edges 5\n1 never refused: holds\n",
        )?
    );
    Ok(())
}

#[test]
fn a_run_that_never_ends_is_found(rt: HostRuntime) -> Result<(), Fail> {
    assert!(rt;
        answers(
            rt.alloc(),
            SELF_QUEUING,
            "expect\nalways ends\ndone\n",
            Status::Fails,
            "states 5 edges 5\n1 always ends: fails at 5\n",
        )?
    );
    Ok(())
}

#[test]
fn more_states_than_may_be_are_cut(rt: HostRuntime) -> Result<(), Fail> {
    assert!(rt;
        gives_of(
            rt.alloc(),
            &["ask", "--states", "1000"],
            ENDLESS_CLOCK,
            "expect\nalways ends\nnever note 1\ndone\n",
            Status::Unknown,
            "states 1000 edges 1000 cut by states\n1 always ends: unknown\n\
        2 never note 1: unknown\n",
        )?
    );
    Ok(())
}

#[test]
fn an_event_that_never_comes_is_named(rt: HostRuntime) -> Result<(), Fail> {
    assert!(rt;
        answers(
            rt.alloc(),
            RAISED,
            "expect\nnever note 7 after note 9\nnever note 9 twice\nnever note 9\n\
        never note 7 after note 2\ndone\n",
            Status::Ok,
            "states 14 edges 13\n1 never note 7 after note 9: holds, note 9 never comes\n\
        2 never note 9 twice: holds, note 9 never comes\n3 never note 9: holds\n\
        4 never note 7 after note 2: holds\n",
        )?
    );
    Ok(())
}

#[test]
fn a_witness_is_a_schedule(rt: HostRuntime) -> Result<(), Fail> {
    let alloc = rt.alloc();
    assert!(rt;
        gives_of(
            alloc,
            &["witness", "2"],
            RAISE_QUEUE_LOWER,
            "expect\nalways note 7\nnever note 7 above 1\ndone\n",
            Status::Ok,
            "schedule 10000\nswitch 0 main\nnext 0\nnext 0\nnext 0\nnext 0\nnext 0\n\
        next 0\nnext 0\nnext 0\nnext 0\nnext 0\ndone\n",
        )?
    );
    assert!(rt;
        gives_of(
            alloc,
            &["witness", "1"],
            SELF_QUEUING,
            "expect\nalways ends\ndone\n",
            Status::Ok,
            "schedule 5\nswitch 0 main\nnext 0\nnext 0\nnext 0\nnext 0\ndone\n",
        )?
    );
    Ok(())
}

#[test]
fn where_there_is_no_witness_a_line_says_why(rt: HostRuntime) -> Result<(), Fail> {
    let alloc = rt.alloc();
    let expected = "expect\nalways note 7\nalways ends\ndone\n";
    let script = RAISE_QUEUE_LOWER;
    assert!(rt;
        gives_of(
            alloc,
            &["witness", "1"],
            script,
            expected,
            Status::NoWitness,
            "no witness\n"
        )?
    );
    assert!(rt;
        gives_of(
            alloc,
            &["witness", "2"],
            script,
            expected,
            Status::NoWitness,
            "no witness\n"
        )?
    );
    let words = ["witness", "3"];
    let text = "no expectation\n";
    assert!(rt; gives_of(alloc, &words, script, expected, Status::NoExpectation, text)?);
    let words = ["witness", "1", "--states=1000"];
    let expected = "expect\nalways ends\ndone\n";
    assert!(rt;
        gives_of(
            alloc,
            &words,
            ENDLESS_CLOCK,
            expected,
            Status::Unknown,
            "unknown\n"
        )?
    );
    Ok(())
}

/// Whether the program answers this status, and writes this text on standard error alone.
fn tells(
    alloc: Global,
    words: &[&str],
    input: &[u8],
    status: Status,
    text: &str,
) -> Result<bool, AllocError> {
    let found = program(alloc, words, input)?;
    Ok(found.0 == status && found.1.is_empty() && found.2.as_slice() == text.as_bytes())
}

/// Whether the program refuses this input, and what it writes on standard error alone begins so.
fn refuses(alloc: Global, words: &[&str], input: &[u8], front: &[u8]) -> Result<bool, AllocError> {
    let found = program(alloc, words, input)?;
    let is_refused = found.0 == Status::Refused && found.1.is_empty();
    Ok(is_refused && found.2.as_slice().starts_with(front))
}

#[test]
fn what_is_no_question_is_refused(rt: HostRuntime) -> Result<(), Fail> {
    let alloc = rt.alloc();
    assert!(rt; tells(alloc, &["walk"], b"", Status::Usage, USAGE)?);
    assert!(rt; gives(alloc, &["--help"], b"", Status::Ok, USAGE)?);
    assert!(rt; gives(alloc, &["--version"], b"", Status::Ok, "ntlab 0.4.0\n")?);
    let text = b"# nothing\ncpus 0\n";
    assert!(rt; refuses(alloc, &["ask"], text, b"standard input:2:6: ")?);
    Ok(())
}

#[test]
fn a_file_is_named_in_messages(rt: HostRuntime) -> Result<(), Fail> {
    let alloc = rt.alloc();
    let text = b"cpus 1\ndpc d r\nthread t 0 r\nroutine r\n  queue e # here\nexit\n";
    assert!(rt; refuses(alloc, &["left", "a.script"], text, b"a.script:5:9: ")?);
    Ok(())
}

#[test]
fn friendly_texts_are_made_strict(rt: HostRuntime) -> Result<(), Fail> {
    let alloc = rt.alloc();
    let friendly =
        b"cpus\t1 # one\r\n\nthread t 0 r\nroutine r\n  raise DISPATCH\n  exit\nexpect\n";
    let strict = "cpus 1\nthread t 0 r\nroutine r\nraise 2\nexit\n";
    assert!(rt; gives(alloc, &["tidy", "a"], friendly, Status::Ok, strict)?);
    assert!(rt; gives(alloc, &["tidy"], strict.as_bytes(), Status::Ok, strict)?);
    Ok(())
}

/// Whether a picture of the script's run is drawn.
fn is_drawn(alloc: Global, script: &[u8]) -> Result<bool, AllocError> {
    let found = program(alloc, &["draw"], script)?;
    Ok(found.0 == Status::Ok && found.1.as_slice().starts_with(b"<svg "))
}

#[test]
fn runs_are_shown(rt: HostRuntime) -> Result<(), Fail> {
    let alloc = rt.alloc();
    let script = b"cpus 1\nthread t 0 r\nroutine r\nnote 1\nexit\n";
    let schedule = "schedule 9\nswitch 0 t\nnext 0\nnext 0\nnext 0\nnext 0\ndone\n";
    let words = ["run", "--schedule", "--turns", "9"];
    assert!(rt; gives(alloc, &words, script, Status::Ok, schedule)?);
    let report = "0  p0  t  PASSIVE   switch to t\n1  p0  t  PASSIVE   note 1 -> done\n\
        2  p0  t  PASSIVE   end thread t\n3  p0  t  PASSIVE   thread t is gone\n\
        4  p0  -  PASSIVE   rest\n";
    assert!(rt; gives(alloc, &["run"], script, Status::Ok, report)?);
    assert!(rt; gives(alloc, &["left"], script, Status::Ok, "nothing is left\n")?);
    assert!(rt; is_drawn(alloc, script)?);
    let lanes = "       p0\n     0 > switch t\n     1 | note 1\n     2 | end 0\n     \
        3 < gone t\n     4 rest\n";
    assert!(rt; gives(alloc, &["draw", "--text"], script, Status::Ok, lanes)?);
    Ok(())
}

#[test]
fn a_schedule_that_is_refused_is_told(rt: HostRuntime) -> Result<(), Fail> {
    let alloc = rt.alloc();
    let front = b"cpus 1\nthread t 0 r\nroutine r\nnote 1\nexit\nschedule 9\nnext 0\ndone\n";
    let text = "turn 0 of the schedule is refused: its processor has nothing to do there\n";
    assert!(rt; tells(alloc, &["left"], front, Status::Refused, text)?);
    let whole = "schedule 9\nswitch 0 t\nnext 0\nnext 0\nnext 0\nnext 0\ndone\n";
    assert!(rt;
        gives(
            alloc,
            &["run", "--go-on", "--schedule"],
            front,
            Status::Ok,
            whole
        )?
    );
    Ok(())
}

#[test]
fn reasons_are_told(rt: HostRuntime) -> Result<(), Fail> {
    let alloc = rt.alloc();
    let script = RAISED.as_bytes();
    let words = ["why", "dpc", "work", "3"];
    assert!(rt; gives(alloc, &words, script, Status::Ok, WORK_AFTER_3)?);
    let words = ["why", "dpc", "work", "5"];
    assert!(rt; gives(alloc, &words, script, Status::Ok, WORK_AFTER_5)?);
    let words = ["why", "thread", "main", "3"];
    let text = "main runs\nthen: not taken up any more\n";
    assert!(rt; gives(alloc, &words, script, Status::Ok, text)?);
    let words = ["why", "int", "0", "5"];
    let text = "* class 5 of p0 isn't asked\nthen: not begun any more\n";
    assert!(rt; gives(alloc, &words, script, Status::Ok, text)?);
    let text = "the script has no int p9 5\n";
    assert!(rt;
        tells(
            alloc,
            &["why", "int", "p9", "5"],
            script,
            Status::Refused,
            text
        )?
    );
    let text = "the script has no apc work\n";
    assert!(rt;
        tells(
            alloc,
            &["why", "apc", "work"],
            script,
            Status::Refused,
            text
        )?
    );
    Ok(())
}

/// Whether a file that can't be opened, with a name that a terminal would obey, and want of memory
/// are told here.
fn are_told(alloc: Global, err: &mut MemorySink) -> bool {
    unopened(alloc, "a\u{1b}[1m.script", err) == Status::Read
        && starved(err) == Status::Memory
        && err.bytes() == b"cannot open a [1m.script\nno memory\n".as_slice()
}

#[test]
fn what_cannot_be_read_is_told(rt: HostRuntime) -> Result<(), Fail> {
    let alloc = rt.alloc();
    let mut err = MemorySink::new(alloc, 100, 16, Vec::new(alloc))?;
    assert!(rt; are_told(alloc, &mut err));
    Ok(())
}

#[test]
fn worked_examples_are_answered(rt: HostRuntime) -> Result<(), Fail> {
    let alloc = rt.alloc();
    assert!(rt;
        answers(
            alloc,
            RAISED,
            "expect\nnever begin dpc work before note 1\nalways note 7\n\
        never note 7 above 2\ndone\n",
            Status::Ok,
            "states 14 edges 13\n1 never begin dpc work before note 1: holds\n\
        2 always note 7: holds\n3 never note 7 above 2: holds\n",
        )?
    );
    assert!(rt;
        answers(
            alloc,
            WHOLE_REQUEST,
            "expect\nnever note 99\nnever call canceltimer limit -> no\ndone\n",
            Status::Ok,
            "states 251 edges 529\n1 never note 99: holds\n\
        2 never call canceltimer limit -> no: holds\n",
        )?
    );
    Ok(())
}

#[test]
fn one_dpc_runs_on_two_processors_at_once(rt: HostRuntime) -> Result<(), Fail> {
    assert!(rt;
        answers(
            rt.alloc(),
            TWO_CPUS,
            "expect\nnever dpc work with dpc work\ndone\n",
            Status::Fails,
            "states 194 edges 360\n1 never dpc work with dpc work: fails at 7\n",
        )?
    );
    Ok(())
}
