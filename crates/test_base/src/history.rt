ghost use Rattle.std.specs.Prelude.{◌≡◌, []};

use nt_event::{CpuNo, Event, Level, Rises, ThreadNo, Turn, What};
use nt_history::{Brief, Briefs, Did, Events, History, Noticed, Recorder, Turns, no_turn};
use std::alloc::AllocError;
use std::process::Abort;

/// A look of processor 1, in which each class rises to this.
fn look(value: u64) -> Event {
    Event {
        cpu: CpuNo(1),
        thread: None,
        level: Level::PASSIVE,
        what: What::Look {
            rises: Rises { value: [value; 16] },
        },
    }
}

/// A look of processor 3, in which class 13 alone rises.
fn clock() -> Event {
    let mut event = look(0);
    event.cpu = CpuNo(3);
    if let What::Look { rises } = &mut event.what {
        rises.value[13] = 8;
    }
    event
}

/// Thread 300 is gone from processor 2.
fn gone() -> Event {
    Event {
        cpu: CpuNo(2),
        thread: Some(ThreadNo(300)),
        level: Level::APC,
        what: What::Gone {
            thread: ThreadNo(300),
        },
    }
}

/// Asserts that these events are lent.
fn lends(rt: &impl Abort, lent: &Briefs<'_>, given: &[Event]) {
    assert_eq!(rt; lent.briefs.len(), given.len());
    for number in 0..given.len() {
        assert_eq!(rt; lent.event(number), given[number]);
    }
}

/// Asserts that the history has 7 turns and these three events, the second of which is a thread
/// that is gone.
fn has_events(rt: &impl Abort, history: &History, given: &[Event]) {
    assert_eq!(rt; history.turns(), 7);
    assert_eq!(rt; history.len(), 3);
    let lent = history.lend();
    lends(rt, &lent, given);
    assert_eq!(rt; lent.briefs.len(), 3);
    assert!(rt; matches!(lent.briefs[1].did, Did::Gone { .. }));
}

#[test]
fn each_look_has_its_values(rt: HostRuntime) -> Result<(), AllocError> {
    let given = [look(1), gone(), look(2)];
    let history = History::new(7, Events::of(rt.alloc(), &given)?);
    has_events(&rt, &history, &given);
    Ok(())
}

/// Asserts that these four events are lent, and that the values of one look stand apart; those of
/// the first one, of class 13 alone, don't.
fn lends_one_look(rt: &impl Abort, lent: &Briefs<'_>, given: &[Event]) {
    lends(rt, lent, given);
    assert_eq!(rt; lent.rises.len(), 1);
    assert_eq!(rt; lent.briefs.len(), 4);
    let first = lent.briefs[0];
    assert_eq!(rt; lent.values(&first).value[13], 8);
}

#[test]
fn a_look_of_one_class_keeps_its_value_itself(rt: HostRuntime) -> Result<(), AllocError> {
    let given = [clock(), look(0), look(4), clock()];
    let events = Events::of(rt.alloc(), &given)?;
    lends_one_look(&rt, &events.lend(), &given);
    Ok(())
}

/// Asserts that the second and the third event are known by their numbers.
fn knows_events(rt: &impl Abort, lent: &Briefs<'_>) {
    assert_eq!(rt; lent.briefs.len(), 3);
    let rises = Rises { value: [2; 16] };
    assert_eq!(rt; lent.turn(1), Turn::Next(CpuNo(2)));
    assert_eq!(rt; lent.turn(2), Turn::Look(CpuNo(1), rises));
    assert!(rt; lent.is_event(1, &gone()));
    assert!(rt; lent.is_event(2, &look(2)));
    assert!(rt; !lent.is_event(2, &look(1)));
}

#[test]
fn an_event_is_known_by_its_number(rt: HostRuntime) -> Result<(), AllocError> {
    let given = [look(1), gone(), look(2)];
    let events = Events::of(rt.alloc(), &given)?;
    knows_events(&rt, &events.lend());
    Ok(())
}

/// Adds briefs of a thread that is gone and of a look, which has its values elsewhere.
fn add_briefs(events: &mut Events) -> Result<(), AllocError> {
    events.push_brief(&Brief::of(&gone(), Noticed::NOTHING))?;
    events.push_brief(&Brief::of(&look(2), Noticed::NOTHING))
}

#[test]
fn a_brief_is_added_as_its_event(rt: HostRuntime) -> Result<(), AllocError> {
    let mut events = Events::of(rt.alloc(), &[look(1)])?;
    add_briefs(&mut events)?;
    lends(&rt, &events.lend(), &[look(1), gone(), look(0)]);
    Ok(())
}

/// Asserts that the recorder has recorded nothing, and records two events.
fn records_two(rt: &impl Abort, recorder: &mut Recorder)
    requires { recorder.old ≡ record { events = []; room = 2 } }
{
    assert_eq!(rt; recorder.last_cpu(), None);
    recorder.put(&look(5));
    recorder.put(&gone());
    assert_eq!(rt; recorder.len(), 2);
    assert_eq!(rt; recorder.last_cpu(), Some(CpuNo(2)));
}

/// Asserts that the first event is what was recorded first.
fn begins_with_a_look(rt: &impl Abort, events: &Events) {
    assert!(rt; !events.is_empty());
    let lent = events.lend();
    assert!(rt; !lent.briefs.is_empty());
    assert_eq!(rt; lent.event(0), look(5));
}

#[test]
fn a_recorder_has_room(rt: HostRuntime) -> Result<(), AllocError> {
    let mut recorder = Recorder::new(rt.alloc(), 2)?;
    records_two(&rt, &mut recorder);
    let events = recorder.finish();
    begins_with_a_look(&rt, &events);
    Ok(())
}

/// Adds these turns to the list.
fn put_turns(turns: &mut Turns, given: &[Turn]) -> Result<(), AllocError> {
    for turn in given {
        turns.push(turn)?;
    }
    Ok(())
}

/// Asserts that the list is these turns.
fn walks(rt: &impl Abort, turns: &Turns, given: &[Turn]) {
    assert_eq!(rt; turns.len(), given.len());
    let mut walk = turns.walk();
    let mut turn = no_turn();
    for wanted in given {
        assert!(rt; walk.next(&mut turn));
        assert_eq!(rt; turn, *wanted);
    }
    assert!(rt; !walk.next(&mut turn));
}

#[test]
fn each_look_of_the_turns_has_its_values(rt: HostRuntime) -> Result<(), AllocError> {
    let given = [
        Turn::Look(CpuNo(0), Rises { value: [1; 16] }),
        Turn::Next(CpuNo(1)),
        clock().turn(),
        Turn::Switch(CpuNo(2), ThreadNo(300)),
        Turn::Look(CpuNo(3), Rises { value: [2; 16] }),
    ];
    let mut turns = Turns::new(rt.alloc());
    assert!(rt; turns.is_empty());
    put_turns(&mut turns, &given)?;
    walks(&rt, &turns, &given);
    Ok(())
}
