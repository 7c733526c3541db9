//! Events are taken in.
ghost use Rattle.std.specs.Prelude.{◌≡◌, IsTrue, None, Some, length, set};
ghost use Rattle.nt_event.specs.declared.events.Event.{Event as Made};
ghost use Rattle.nt_event.specs.declared.jobs.Stand.{Stand as Place};
ghost use Rattle.nt_event.specs.Script.{has_thread};
ghost use Rattle.nt_event.specs.Waits.{made_facts};
ghost use Rattle.nt_states.specs.ThreadFits.{CanMake, CanTell, MayLeave, named_thread as thread_of};
ghost use Rattle.nt_states.specs.ThreadFits.{told_facts};
ghost use Rattle.nt_states.specs.ThreadLanes.{facts_in, left};

use crate::Threads;
use crate::making::make;
use crate::marks::mark;
use crate::telling::{named_thread, tell};
use nt_event::{Event, ThreadNo, What};
use nt_frame::StandView;

impl<'s> Threads<'s> {
    /// Takes in the event of this number, of a processor that stood so: the thread that it names
    /// changes, or else the one that makes it.
    ///
    /// The event is one that a job gives in these states, as the answers of the other calls say: a
    /// Switch takes up a ready thread of the processor with its status, a wait has the reply of
    /// [`Threads::wait_reply`], an APC begins where it is due, and so on.
    #[inline(always)]
    pub fn leave(&mut self, n: u64, stand: &StandView, event: &Event)
        requires { MayLeave self.old stand.now event.now }
        ensures { self.new ≡ left n stand.now event.now self.old }
    {
        match named_thread(self.script, &event.what) {
            Some(thread) => self.tell(thread, n, &event.what),
            None => self.make_event(n, stand, event),
        }
    }

    /// The same, of an event that names no thread.
    fn make_event(&mut self, n: u64, stand: &StandView, event: &Event)
        requires may { MayLeave self.old stand.now event.now }
        requires none { thread_of self.old.script event.now.what ≡ None }
        ensures { self.new ≡ left n stand.now event.now self.old }
    {
        let _script = self.script;
        if let Some(thread) = event.thread {
            self.make(thread, n, stand, &event.what);
        }
    }

    /// The state of the thread that makes the event changes.
    fn make(&mut self, t: ThreadNo, n: u64, stand: &StandView, what: &What)
        requires thread { IsTrue (has_thread self.old.script t) }
        requires none { thread_of self.old.script what.now ≡ None }
        requires may { CanMake stand.now what.now (facts_in self.old t) }
        ensures { self.new ≡ record self.old {
          facts =
              set self.old.facts t.0
              (made_facts self.old.script n stand.now what.now (facts_in self.old t));
        } }
    {
        make(&mut self.states[t.0 as usize], self.script, n, stand, what);
        mark(&mut self.inserted, what);
    }

    /// The state of the thread that the event names changes, and no other, whoever makes the event:
    /// all that it leaves of the threads.
    ///
    /// Where the maker runs is not asked, so a record in which only another processor's threads
    /// tell anything takes it too.
    #[inline(always)]
    pub fn tell(&mut self, t: ThreadNo, n: u64, what: &What)
        requires thread { IsTrue (has_thread self.old.script t) }
        requires named { thread_of self.old.script what.now ≡ Some t }
        requires may { CanTell self.old.script what.now (facts_in self.old t) }
        ensures { (st : Place) (e : Made) → e.what ≡ what.now → self.new ≡ left n st e self.old }
    {
        let _script = self.script;
        self.tell_thread(t, n, what);
    }

    /// The same, of the thread's facts.
    fn tell_thread(&mut self, t: ThreadNo, n: u64, what: &What)
        requires thread { IsTrue (has_thread self.old.script t) }
        requires named { thread_of self.old.script what.now ≡ Some t }
        requires may { CanTell self.old.script what.now (facts_in self.old t) }
        ensures { self.new ≡ record self.old {
          facts =
              set self.old.facts t.0 (told_facts self.old.script n what.now (facts_in self.old t));
        } }
    {
        tell(&mut self.states[t.0 as usize], self.script, n, what);
        mark(&mut self.inserted, what);
    }
}
