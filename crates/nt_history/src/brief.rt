//! An event without the values of a look.
ghost use Rattle.std.specs.Prelude.{◌≡◌, ◌↔◌, ◌<◌, IsTrue};
ghost use Rattle.nt_history.specs.Briefs.{IsLook, NoneAbove, NoneBelow, brief_of, did_of, event_of};
ghost use Rattle.nt_history.specs.Briefs.{no_rises, nothing, noticed_of, one_rise, values_at};
ghost use Rattle.nt_history.specs.Briefs.{what_of};

use nt_event::{
    ApcNo, Begun, Command, CpuNo, DpcNo, Event, Level, LockNo, Reply, Rises, ThreadNo, TimerKey,
    What,
};

/// Where the values of a look are kept.
#[derive(Clone, Copy, PartialEq, Eq, Debug)]
pub enum Noticed {
    /// Here: this class alone rose, to this value.
    One { class: u8, value: u64 },
    /// At this place among the values of the looks in which several classes rose.
    Several { at: usize },
}

/// Writes the values of a look in which this class alone rose, to this value.
fn write_one_rise(rises: &mut Rises, class: u8, value: u64)
    ensures { rises.new ≡ one_rise class value }
{
    *rises = NO_RISES;
    if class < 16 {
        rises.value[class as usize] = value;
    }
}

/// The first class that rose; 0 where none did.
fn first_rise(rises: &Rises) -> u8
    ensures class { result < 16 }
    ensures below { NoneBelow result rises.now }
{
    for class in 0..16 {
        if rises.value[class as usize] != 0 {
            return class;
        }
    }
    0
}

/// The last class that rose; 0 where none did.
fn last_rise(rises: &Rises) -> u8
    ensures { NoneAbove result rises.now }
{
    for passed in 0..16 {
        let class = 15 - passed;
        if rises.value[class as usize] != 0 {
            return class;
        }
    }
    0
}

impl Noticed {
    /// That of a look in which nothing rose.
    pub const NOTHING: Noticed = Noticed::One { class: 0, value: 0 };

    /// Where these values of a look are kept: here where one class alone rose, else at this place.
    ///
    /// One alone rose where the first that rose is the last.
    #[inline(always)]
    pub fn of_look(rises: &Rises, at: usize) -> Noticed
        ensures { IsLook at result rises.now }
    {
        let class = first_rise(rises);
        let value = rises.value[class as usize];
        if class == last_rise(rises) {
            Noticed::One { class, value }
        } else {
            Noticed::Several { at }
        }
    }

    /// Writes the values that are kept so, where several has those of the looks in which several
    /// classes rose.
    #[inline(always)]
    pub fn write_values(&self, several: &[Rises], rises: &mut Rises)
        ensures { rises.new ≡ values_at several.now self.now }
    {
        match *self {
            Noticed::One { class, value } => write_one_rise(rises, class, value),
            Noticed::Several { at } => match several.get(at) {
                Some(values) => *rises = *values,
                None => *rises = NO_RISES,
            },
        }
    }
}

/// The values of a look that noticed nothing.
pub(crate) const NO_RISES: Rises = Rises { value: [0; 16] };

/// What an event does, where of a look it is kept where its values are.
///
/// The fields of a call stand in the order in which they take the least room: a brief has 40 bytes.
#[derive(Clone, Copy, PartialEq, Eq, Debug)]
pub enum Did {
    /// A routine calls a command.
    Call {
        command: Command,
        reply: Reply,
        frame: u64,
    },
    /// The processor notices requests, whose values are kept so.
    Look {
        noticed: Noticed,
    },
    /// A routine begins.
    Begin {
        begun: Begun,
        from: u64,
    },
    /// An APC goes on from its kernel routine to its normal routine.
    Normal {
        frame: u64,
    },
    /// A routine ends.
    End {
        frame: u64,
    },
    /// A timer or delay expires.
    Expire {
        key: TimerKey,
        from: u64,
    },
    /// An expired timer inserts its DPC object.
    Fire {
        dpc: DpcNo,
        reply: Reply,
    },
    /// The processor has served a class.
    Clean {
        class: u8,
    },
    /// A thread is taken up, with the status of the wait that ended, if any.
    Switch {
        thread: ThreadNo,
        status: Option<u32>,
    },
    /// A wait that a kernel APC interrupted is taken up again.
    Rewait {
        frame: u64,
        reply: Reply,
    },
    /// A thread that ends gives up a user APC.
    Flush {
        apc: ApcNo,
        from: u64,
    },
    /// A thread is gone.
    Gone {
        thread: ThreadNo,
    },
    /// A routine that ends frees a lock that it holds.
    Free {
        frame: u64,
        lock: LockNo,
    },
    /// The processor has nothing to do.
    Rest,
}

impl Did {
    /// Writes what is kept of this, where the values of a look are kept so.
    #[inline(always)]
    pub(crate) fn write(&mut self, what: &What, noticed: Noticed)
        ensures { self.new ≡ did_of noticed what.now }
    {
        match *what {
            What::Call {
                frame,
                command,
                reply,
            } => {
                *self = Did::Call {
                    frame,
                    command,
                    reply,
                }
            }
            What::Look { .. } => *self = Did::Look { noticed },
            What::Begin { begun, from } => *self = Did::Begin { begun, from },
            What::Normal { frame } => *self = Did::Normal { frame },
            What::End { frame } => *self = Did::End { frame },
            What::Expire { key, from } => *self = Did::Expire { key, from },
            What::Fire { dpc, reply } => *self = Did::Fire { dpc, reply },
            What::Clean { class } => *self = Did::Clean { class },
            What::Switch { thread, status } => *self = Did::Switch { thread, status },
            What::Rewait { frame, reply } => *self = Did::Rewait { frame, reply },
            What::Flush { apc, from } => *self = Did::Flush { apc, from },
            What::Gone { thread } => *self = Did::Gone { thread },
            What::Free { frame, lock } => *self = Did::Free { frame, lock },
            What::Rest => *self = Did::Rest,
        }
    }

    /// Where the values are kept, where it is a look; else nothing rose.
    pub(crate) fn noticed(&self) -> Noticed
        ensures { result ≡ noticed_of self.now }
    {
        match *self {
            Did::Look { noticed } => noticed,
            Did::Call { .. }
            | Did::Begin { .. }
            | Did::Normal { .. }
            | Did::End { .. }
            | Did::Expire { .. }
            | Did::Fire { .. }
            | Did::Clean { .. }
            | Did::Switch { .. }
            | Did::Rewait { .. }
            | Did::Flush { .. }
            | Did::Gone { .. }
            | Did::Free { .. }
            | Did::Rest => Noticed::NOTHING,
        }
    }

    /// What the event does, where a look has these values.
    pub fn what(&self, rises: &Rises) -> What
        ensures { result ≡ what_of rises.now self.now }
    {
        match *self {
            Did::Call {
                frame,
                command,
                reply,
            } => What::Call {
                frame,
                command,
                reply,
            },
            Did::Look { .. } => What::Look { rises: *rises },
            Did::Begin { begun, from } => What::Begin { begun, from },
            Did::Normal { frame } => What::Normal { frame },
            Did::End { frame } => What::End { frame },
            Did::Expire { key, from } => What::Expire { key, from },
            Did::Fire { dpc, reply } => What::Fire { dpc, reply },
            Did::Clean { class } => What::Clean { class },
            Did::Switch { thread, status } => What::Switch { thread, status },
            Did::Rewait { frame, reply } => What::Rewait { frame, reply },
            Did::Flush { apc, from } => What::Flush { apc, from },
            Did::Gone { thread } => What::Gone { thread },
            Did::Free { frame, lock } => What::Free { frame, lock },
            Did::Rest => What::Rest,
        }
    }
}

/// An event without the values of a look.
#[derive(Clone, Copy, PartialEq, Eq, Debug)]
pub struct Brief {
    /// The processor that made it.
    pub cpu: CpuNo,
    /// The thread that ran on the processor before it; for a Switch the thread that is taken; none
    /// for a Look.
    pub thread: Option<ThreadNo>,
    /// The processor's level after it; 0 for a Look.
    pub level: Level,
    /// What it did.
    pub did: Did,
}

impl Brief {
    /// A brief that is still to be written.
    pub(crate) const BLANK: Brief = Brief {
        cpu: CpuNo(0),
        thread: None,
        level: Level::PASSIVE,
        did: Did::Rest,
    };

    /// What is kept of the event, where the values of a look are kept so.
    #[inline(always)]
    pub fn of(event: &Event, noticed: Noticed) -> Brief
        ensures { result ≡ brief_of noticed event.now }
    {
        let mut brief = Brief::BLANK;
        brief.write(event, noticed);
        brief
    }

    /// Writes what is kept of the event, where the values of a look are kept so.
    #[inline(always)]
    pub(crate) fn write(&mut self, event: &Event, noticed: Noticed)
        ensures { self.new ≡ brief_of noticed event.now }
    {
        self.cpu = event.cpu;
        self.thread = event.thread;
        self.level = event.level;
        self.did.write(&event.what, noticed);
    }

    /// The same, where in a look nothing rose.
    #[inline(always)]
    pub(crate) fn with_nothing(&self) -> Brief
        ensures { result ≡ brief_of nothing (event_of no_rises self.now) }
    {
        let mut brief = *self;
        if let Did::Look { .. } = brief.did {
            brief.did = Did::Look {
                noticed: Noticed::NOTHING,
            };
        }
        brief
    }

    /// Whether they are the same.
    #[inline(always)]
    pub(crate) fn is_same(&self, other: &Brief) -> bool
        ensures { IsTrue result ↔ (self.now ≡ other.now) }
    {
        *self == *other
    }

    /// The event, where a look has these values.
    pub fn event(&self, rises: &Rises) -> Event
        ensures { result ≡ event_of rises.now self.now }
    {
        Event {
            cpu: self.cpu,
            thread: self.thread,
            level: self.level,
            what: self.did.what(rises),
        }
    }
}
