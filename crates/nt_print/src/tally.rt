//! What a report or a summary needs of the events of a history, noted event by event from the first
//! on. So an insert waits as long as no Begin or Flush names it and no event behind it removes its
//! object.
ghost use Rattle.std.specs.Prelude.{◌≡◌, ◌+◌, ◌<◌, ◌≤◌, ℕ, List, IfOk, get_or, length, true};
ghost use Rattle.nt_event.specs.declared.commands.Reply.TheVariants.{Spin, Yes};
ghost use Rattle.nt_event.specs.declared.events.Event.{Event};
ghost use Rattle.nt_event.specs.declared.events.Rises.{Rises};
ghost use Rattle.nt_event.specs.declared.events.What.TheVariants as what;
ghost use Rattle.nt_event.specs.Fitting.{events_fit};
ghost use Rattle.nt_history.specs.Briefs.{what_of};
ghost use Rattle.nt_print.specs.Lent.{lent};
ghost use Rattle.nt_print.specs.Tally.{HasRoom, Tallies, TalliesAll, noted_rest, with_named};
ghost use Rattle.nt_print.specs.Tally.{last_removal, removed_apcs, removed_dpcs, rests_by};
ghost use Rattle.nt_print.specs.Tally.{waits_by, with_use, with_what};
ghost use Rattle.nt_print.specs.Uses.{inserted_of, thing_of};

use crate::flags::Flags;
use crate::inserts::{Insert, Object, inserts};
use crate::numbers::Numbers;
use crate::spins::{Spins, Spun};
use nt_event::{Begun, Command, Reply, Script};
use nt_history::{Briefs, Did};
use std::alloc::{AllocError, Global};

/// What a report or a summary needs of the first events of a history.
#[derive(Drop)]
pub(crate) struct Tally {
    /// How many of them are calls.
    pub calls: usize,
    /// How many are calls that were refused.
    pub refused: usize,
    /// How many are begins.
    pub begins: usize,
    /// By processor, how many of them it made.
    pub made: Numbers,
    /// By processor, how many of them it had made when it rested last, 0 where it never did.
    pub rested: Numbers,
    /// By processor, its last call of `acquire` with reply spin among them.
    pub spins: Spins,
    /// By the number of an event, whether it is one of them and an insert that no Begin or Flush
    /// among them named.
    pub unnamed: Flags,
    /// By DPC object, the number of the last of them that removed it, 0 where none did. No insert
    /// comes before the event 0.
    pub dpcs: Numbers,
    /// By APC object likewise.
    pub apcs: Numbers,
}

impl Tally {
    /// The tally of no event.
    pub(crate) fn new(alloc: Global, script: &Script, events: &Briefs) -> Result<Tally, AllocError>
        ensures { IfOk result (λ tally. Tallies script.now (lent events.now) 0 tally) }
    {
        Ok(Tally {
            calls: 0,
            refused: 0,
            begins: 0,
            made: Numbers::new(alloc, script.cpus as usize)?,
            rested: Numbers::new(alloc, script.cpus as usize)?,
            spins: Spins::new(alloc, script.cpus as usize)?,
            unnamed: Flags::new(alloc, events.briefs.len())?,
            dpcs: Numbers::new(alloc, script.dpcs.len())?,
            apcs: Numbers::new(alloc, script.apcs.len())?,
        })
    }

    /// Whether the last of these events that the processor made is a Rest.
    pub(crate) fn rests(&self, cpu: usize) -> bool
        ensures { result ≡ rests_by self.now cpu }
    {
        let rested = self.rested.at(cpu);
        0 < rested && rested == self.made.at(cpu)
    }

    /// The number of the last event that removed the object, 0 where none did.
    fn last_removal(&self, object: Object) -> usize
        ensures { result ≡ last_removal self.now (thing_of object) }
    {
        match object {
            Object::Dpc(dpc) => self.dpcs.at(dpc.0 as usize),
            Object::Apc(apc) => self.apcs.at(apc.0 as usize),
        }
    }

    /// Whether the insert of the object by the event of this number waits behind the events that
    /// are tallied.
    pub(crate) fn waits(&self, number: usize, object: Object) -> bool
        ensures { result ≡ waits_by self.now number (thing_of object) }
    {
        self.unnamed.is_set(number) && self.last_removal(object) <= number
    }

    /// Notes that the event of this number removed the object.
    fn note_removal(&mut self, number: usize, object: Object)
        ensures { self.new ≡ record self.old {
          dpcs = removed_dpcs number (Some (thing_of object)) self.old.dpcs;
          apcs = removed_apcs number (Some (thing_of object)) self.old.apcs;
        } }
    {
        match object {
            Object::Dpc(dpc) => self.dpcs.set(dpc.0 as usize, number),
            Object::Apc(apc) => self.apcs.set(apc.0 as usize, number),
        }
    }

    /// Notes that the event of this number named an insert.
    #[inline(always)]
    fn note_named(&mut self, events: &Briefs, number: usize, insert: Insert)
        requires number { number ≤ length events.now.briefs.now }
        ensures { self.new ≡ record self.old {
          unnamed =
              with_named (lent events.now) number (Some (inserted_of insert)) self.old.unnamed;
        } }
    {
        if insert.number < number as u64 {
            let place = insert.number as usize;
            if inserts(insert.object, &events.briefs[place].did) {
                self.unnamed.clear(place);
            }
        }
    }

    /// Notes what a call with reply yes inserts or removes.
    #[inline(always)]
    fn note_done(&mut self, number: usize, command: &Command)
        ensures { (events : List Event) (f p : ℕ) →
            self.new ≡ with_use events number p (what.Call f command.now Yes) self.old }
    {
        match command {
            Command::Queue(_) | Command::InsertApc(_) => self.unnamed.set(number),
            Command::Unqueue(dpc) => self.note_removal(number, Object::Dpc(*dpc)),
            Command::RemoveApc(apc) => self.note_removal(number, Object::Apc(*apc)),
            Command::Raise(_)
            | Command::Lower(_)
            | Command::SetImportance(_, _)
            | Command::SetTarget(_, _)
            | Command::SetTimer(_, _, _)
            | Command::CancelTimer(_)
            | Command::EnterCrit
            | Command::EnterGuard
            | Command::LeaveCrit
            | Command::LeaveGuard
            | Command::StartWait(_, _)
            | Command::Delay(_, _, _)
            | Command::Release(_)
            | Command::Alert(_, _)
            | Command::TestAlert(_)
            | Command::Interrupt(_, _)
            | Command::Clock(_)
            | Command::ToUser
            | Command::Yield
            | Command::Acquire(_)
            | Command::Unlock(_)
            | Command::Note(_) => {}
        }
    }

    /// Notes what the processor's call with reply spin tries for.
    fn note_spin(&mut self, number: usize, cpu: usize, command: &Command)
        ensures { (events : List Event) (f : ℕ) →
            self.new ≡ with_use events number cpu (what.Call f command.now Spin) self.old }
    {
        match command {
            Command::Acquire(lock) => self.spins.set(
                cpu,
                Spun {
                    number: number as u64,
                    lock: *lock,
                },
            ),
            Command::Raise(_)
            | Command::Lower(_)
            | Command::Queue(_)
            | Command::Unqueue(_)
            | Command::SetImportance(_, _)
            | Command::SetTarget(_, _)
            | Command::SetTimer(_, _, _)
            | Command::CancelTimer(_)
            | Command::InsertApc(_)
            | Command::RemoveApc(_)
            | Command::EnterCrit
            | Command::EnterGuard
            | Command::LeaveCrit
            | Command::LeaveGuard
            | Command::StartWait(_, _)
            | Command::Delay(_, _, _)
            | Command::Release(_)
            | Command::Alert(_, _)
            | Command::TestAlert(_)
            | Command::Interrupt(_, _)
            | Command::Clock(_)
            | Command::ToUser
            | Command::Yield
            | Command::Unlock(_)
            | Command::Note(_) => {}
        }
    }

    /// Tallies a call of the processor.
    #[inline(always)]
    fn note_call(&mut self, number: usize, cpu: usize, command: &Command, reply: &Reply)
        requires room { HasRoom self.old }
        ensures { (events : List Event) (f : ℕ) →
            self.new ≡ with_what events number cpu (what.Call f command.now reply.now) self.old }
    {
        self.calls += 1;
        match reply {
            Reply::Refused(_) => self.refused += 1,
            Reply::Yes => self.note_done(number, command),
            Reply::Spin => self.note_spin(number, cpu, command),
            Reply::Done | Reply::No | Reply::Status(_) | Reply::Blocked => {}
        }
    }

    /// Tallies a begin.
    #[inline(always)]
    fn note_begin(&mut self, events: &Briefs, number: usize, begun: &Begun, from: u64)
        requires room { HasRoom self.old }
        requires number { number ≤ length events.now.briefs.now }
        ensures { (p : ℕ) →
            self.new ≡ with_what (lent events.now) number p (what.Begin begun.now from) self.old }
    {
        self.begins += 1;
        match begun {
            Begun::Dpc(dpc) | Begun::Threaded(dpc) => self.note_named(
                events,
                number,
                Insert {
                    number: from,
                    object: Object::Dpc(*dpc),
                },
            ),
            Begun::Apc(apc) => self.note_named(
                events,
                number,
                Insert {
                    number: from,
                    object: Object::Apc(*apc),
                },
            ),
            Begun::Int(_) => {}
        }
    }

    /// Notes that the last of the events that the processor made is a Rest.
    fn note_rest(&mut self, cpu: usize)
        ensures { self.new ≡ record self.old {
          rested = noted_rest cpu (get_or self.old.made cpu 0) true self.old.rested;
        } }
    {
        self.rested.set(cpu, self.made.at(cpu));
    }

    /// Tallies what the event of this number, one of the processor, did.
    #[inline(always)]
    fn note_did(&mut self, events: &Briefs, number: usize, cpu: usize, did: &Did)
        requires room { HasRoom self.old }
        requires number { number ≤ length events.now.briefs.now }
        ensures { (r : Rises) →
            self.new ≡ with_what (lent events.now) number cpu (what_of r did.now) self.old }
    {
        match did {
            Did::Call { command, reply, .. } => self.note_call(number, cpu, command, reply),
            Did::Begin { begun, from } => self.note_begin(events, number, begun, *from),
            Did::Fire { reply, .. } => match reply {
                Reply::Yes => self.unnamed.set(number),
                Reply::Done
                | Reply::No
                | Reply::Status(_)
                | Reply::Blocked
                | Reply::Spin
                | Reply::Refused(_) => {}
            },
            Did::Flush { apc, from } => self.note_named(
                events,
                number,
                Insert {
                    number: *from,
                    object: Object::Apc(*apc),
                },
            ),
            Did::Rest => self.note_rest(cpu),
            Did::Look { .. } => {}
            Did::Normal { .. }
            | Did::End { .. }
            | Did::Expire { .. }
            | Did::Clean { .. }
            | Did::Switch { .. }
            | Did::Rewait { .. }
            | Did::Gone { .. }
            | Did::Free { .. } => {}
        }
    }

    /// Tallies the event of this number, where those before it are tallied.
    #[inline(always)]
    pub(crate) fn note_event(&mut self, script: &Script, events: &Briefs, number: usize)
        requires number { number < length events.now.briefs.now }
        requires fit { events_fit script.now (lent events.now) ≡ true }
        requires tallies { Tallies script.now (lent events.now) number self.old }
        ensures { Tallies script.now (lent events.now) (number + 1) self.new }
    {
        let event = &events.briefs[number];
        let cpu = event.cpu.0 as usize;
        self.made.count(cpu);
        self.note_did(events, number, cpu, &event.did);
    }
}

/// The tally of the events of a history, which name things of the script.
pub(crate) fn tally_of(alloc: Global, script: &Script, events: &Briefs) -> Result<Tally, AllocError>
    requires fit { events_fit script.now (lent events.now) ≡ true }
    ensures { IfOk result (λ tally. TalliesAll script.now (lent events.now) tally) }
{
    let mut tally = Tally::new(alloc, script, events)?;
    for number in 0..events.briefs.len() {
        tally.note_event(script, events, number);
    }
    Ok(tally)
}
