//! Answers of a queue, row by row, and two workers that meet.
ghost use Rattle.std.specs.Prelude.{◌≡◌, ◌≤◌, length};

use nt_event::{Command, CpuNo, DpcNo, Event, Level, Reply, What};
use nt_history::{Events, History};
use nt_outside::{Gate, OpenGate};
use nt_work::{Audited, Item, WorkQueue, audit, items, waiting_at};
use std::alloc::{AllocError, Global};
use std::hint::spin_loop;
use std::process::Abort;
use std::sync::Wait;
use std::sync::atomic::{AtomicU64, Ordering};
use std::thread::Threads;

fn item(event: u64) -> Item {
    Item {
        event,
        cpu: CpuNo(0),
        word: 7,
    }
}

/// Each answer is of the queue as it is at the call, and not of what the pass knew before.
#[test]
fn answers_are_fresh(rt: HostRuntime) -> Result<(), AllocError> {
    let (queue, mut first) = WorkQueue::new(rt.alloc(), 1)?;
    let mut second = queue.split(&mut first);
    assert_eq!(rt; queue.put(&rt, &mut first, item(1)), Ok(()));
    assert_eq!(rt; queue.put(&rt, &mut first, item(2)), Err(item(2)));
    assert_eq!(rt; queue.take(&rt, &mut second), Some(item(1)));
    assert_eq!(rt; queue.take(&rt, &mut second), None);
    assert_eq!(rt; queue.put(&rt, &mut first, item(2)), Ok(()));
    assert_eq!(rt; queue.take(&rt, &mut second), Some(item(2)));
    queue.meet(&mut first, second);
    Ok(())
}

/// A call by the routine that event 0 began.
fn call(cpu: u8, command: Command, reply: Reply) -> Event {
    Event {
        cpu: CpuNo(cpu),
        thread: None,
        level: Level::PASSIVE,
        what: What::Call {
            frame: 0,
            command,
            reply,
        },
    }
}

fn note(cpu: u8, word: u32) -> Event {
    call(cpu, Command::Note(word), Reply::Done)
}

fn history(alloc: Global, events: &[Event]) -> Result<History, AllocError> {
    Ok(History::new(100, Events::of(alloc, events)?))
}

/// The items of [`events_noted`].
const NOTED: [Item; 3] = [
    Item {
        event: 0,
        cpu: CpuNo(1),
        word: 5,
    },
    Item {
        event: 2,
        cpu: CpuNo(0),
        word: 6,
    },
    Item {
        event: 5,
        cpu: CpuNo(1),
        word: 7,
    },
];

/// Three notes, the second of which is made while a DPC is pending.
fn events_noted() -> [Event; 6] {
    [
        note(1, 5),
        call(0, Command::Queue(DpcNo(3)), Reply::Yes),
        note(0, 6),
        call(0, Command::Queue(DpcNo(3)), Reply::No),
        call(0, Command::Unqueue(DpcNo(3)), Reply::Yes),
        note(1, 7),
    ]
}

/// Whether these are the items of the history.
fn has_items(alloc: Global, history: &History, wanted: &[Item]) -> Result<bool, AllocError> {
    let items = items(alloc, history)?;
    Ok(items.as_slice() == wanted)
}

/// Whether of three items the second waits beside one insert, and the third beside none.
fn are_done(audited: &[Audited]) -> bool {
    if audited.len() != 3 {
        return false;
    }
    let second = Audited {
        item: NOTED[1],
        waiting: 1,
    };
    let third = Audited {
        item: NOTED[2],
        waiting: 0,
    };
    audited[1] == second && audited[2] == third
}

/// Whether so many workers do them so.
fn is_audited<R: AllocGlobal + Threads + Wait + Sync>(
    rt: &R,
    history: &History,
    workers: u8,
) -> Result<bool, AllocError>
    requires events { length history.now.events ≡ 6 }
    requires workers { (1 ≤ workers) × (workers ≤ 16) }
{
    let audited = audit(rt, rt.alloc(), history, workers, 1, &OpenGate)?;
    Ok(are_done(audited.as_slice()))
}

/// Asserts that the items are known, and are done by 1 to 16 workers.
fn counts<R: Abort + AllocGlobal + Threads + Wait + Sync>(
    rt: &R,
    history: &History,
) -> Result<(), AllocError> {
    assert!(rt; history.len() == 6);
    assert!(rt; has_items(rt.alloc(), history, &NOTED)?);
    assert_eq!(rt; waiting_at(history, 2), 1);
    assert_eq!(rt; waiting_at(history, 5), 0);
    for workers in 1..17 {
        assert!(rt; is_audited(rt, history, workers)?);
    }
    Ok(())
}

#[test]
fn a_note_counts_what_is_pending_before_it(rt: HostRuntime) -> Result<(), AllocError> {
    let history = history(rt.alloc(), &events_noted())?;
    counts(&rt, &history)
}

/// How often a flag is looked for at most.
const LOOKS: u32 = 100_000_000;

/// Workers 0 and 1 meet before their first items: each sets its flag, and looks for the other's.
#[derive(Drop)]
struct Meeting {
    flags: [AtomicU64; 2],
    missed: AtomicU64,
}

impl Meeting {
    fn sees(&self, worker: usize) -> bool {
        for _ in 0..LOOKS {
            if worker < 2 && self.flags[worker].load(Ordering::SeqCst) == 1 {
                return true;
            }
            spin_loop();
        }
        false
    }

    /// Whether both came, and each saw the other one.
    fn is_met(&self) -> bool {
        self.sees(0) && self.sees(1) && self.missed.load(Ordering::SeqCst) == 0
    }
}

impl Gate for Meeting {
    fn pass(&self, cpu: u8, own: u64) {
        if own == 0 && cpu < 2 {
            self.flags[cpu as usize].store(1, Ordering::SeqCst);
            if !self.sees(1 - cpu as usize) {
                self.missed.store(1, Ordering::SeqCst);
            }
        }
    }
}

/// Whether two workers do four items of the history at this gate, and meet there.
fn workers_meet<R: AllocGlobal + Threads + Wait + Sync>(
    rt: &R,
    history: &History,
    gate: &Meeting,
) -> Result<bool, AllocError> {
    if history.len() != 4 {
        return Ok(false);
    }
    let audited = audit(rt, rt.alloc(), history, 2, 64, gate)?;
    let has_each = audited.len() == 4;
    Ok(has_each && gate.is_met())
}

#[test]
fn two_workers_do_items_at_the_same_time(rt: HostRuntime) -> Result<(), AllocError> {
    let events = [note(0, 1), note(1, 2), note(0, 3), note(1, 4)];
    let history = history(rt.alloc(), &events)?;
    let gate = Meeting {
        flags: [AtomicU64::new(0), AtomicU64::new(0)],
        missed: AtomicU64::new(0),
    };
    assert!(rt; workers_meet(&rt, &history, &gate)?);
    Ok(())
}
