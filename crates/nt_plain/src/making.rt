//! The event of a job, and what it leaves of the floor.
ghost use Rattle.std.specs.Prelude.{◌≡◌, ◌<◌, ◌^◌, All, IfErr, IfSome, IsErrOf, OnErr, OnOk, Some};
ghost use Rattle.std.specs.Prelude.{false, max};
ghost use Rattle.nt_event.specs.Acting.{acted_event};
ghost use Rattle.nt_event.specs.Frames.{due_of};
ghost use Rattle.nt_event.specs.Jobs.{job_event};
ghost use Rattle.nt_event.specs.Lanes.{what_lanes};
ghost use Rattle.nt_event.specs.Requests.{what_asks};
ghost use Rattle.nt_event.specs.Lists.{table, value_at};
ghost use Rattle.nt_event.specs.declared.acts.ActRefusal.{ActRefusal};
ghost use Rattle.nt_event.specs.Acts.{Found, IsRefused, KindsFit};
ghost use Rattle.nt_floor.specs.Seen.{SameInterrupts};
ghost use Rattle.nt_states.specs.Allowed.{MayMake, MayDo};
ghost use Rattle.nt_states.specs.LaneLists.{AskFits, LaneFits};
ghost use Rattle.nt_plain.specs.Made.{IsPlanned, made, states_of, told_values};

use crate::plain::PlainFloor;
use crate::told::raise_own;
use nt_event::{Event, Job, What};
use nt_floor::{ActRefusal, Made, Seen};
use nt_frame::StandView;
use nt_states::{Asks, Touched};

impl<'s> PlainFloor<'s> {
    /// Writes the event of the job where the caller keeps it, for a processor that stands so, or
    /// answers why there is none.
    ///
    /// NothingToDo and BadChoice come as from [`nt_states::decide_into`], NoMemory never. After a
    /// refusal nothing was written.
    pub(crate) fn decide(
        &self,
        job: &Job,
        stand: &StandView,
        into: &mut What,
    ) -> Result<(), ActRefusal>
        requires { MayDo (states_of self.now) stand.now job.now }
        ensures event { OnOk result
            (job_event self.now.script stand.now self.now.lanes job.now ≡ Some into.new) }
        ensures given { OnOk result (MayMake (states_of self.now) stand.now into.new) }
        ensures refused { IfErr result (λ r.
            (f : Found) → f.lanes ≡ self.now.lanes →
            IsRefused self.now.script f stand.now job.now r) }
        ensures unwritten { OnErr result (into.new ≡ into.old) }
        ensures memory { IsErrOf result ActRefusal.NoMemory → ⊥ }
    {
        nt_states::decide_into(&self.states, job, stand, into)
    }

    /// The pending APCs are of their objects' kinds.
    pub(crate) fn kinds(&self)
        ensures { KindsFit self.now.script self.now.lanes }
    {
        self.states.kinds();
    }

    /// Makes the event of a processor that stands so which does what stands in its place.
    pub(crate) fn make(&mut self, stand: &StandView, seen: &mut Seen, event: &mut Event) -> Made
        requires given { MayMake (states_of self.old) stand.now event.old.what }
        requires room { self.old.next < self.old.limit }
        ensures number { result.number ≡ self.old.next }
        ensures event { event.new ≡ acted_event stand.now self.old.lanes event.old.what }
        ensures due { result.due ≡ due_of event.old.what self.old.lanes.timers.now }
        ensures due_fits { IfSome result.due (λ due. due < 2 ^ 51) }
        ensures seen { seen.new ≡ table 16 (λ c.
            max (value_at seen.old c)
            (value_at (told_values self.old stand.now event.old.what) c)) }
        ensures interrupts { result.interrupts ≡ false → SameInterrupts seen.old seen.new }
        ensures lanes_named { All (LaneFits self.old.script)
            (what_lanes self.old.script stand.now event.old.what self.old.lanes) }
        ensures asks_named { All (AskFits self.old.script)
            (what_asks self.old.script stand.now event.old.what self.old.lanes) }
        ensures state { self.new ≡ made stand.now event.old.what self.old }
    {
        let number = self.next;
        nt_states::complete(&self.states, stand, event);
        let what = &event.what;
        let due = nt_states::due(&self.states, what);
        let lanes = nt_states::event_lanes(&self.states, stand, what);
        let mut asks = Asks::none();
        nt_states::event_asks(&self.states, stand, what, &mut asks);
        let interrupts = self.tell_by(stand, what, &lanes, &asks, seen);
        self.leave(stand, event, &lanes, &asks);
        Made {
            number,
            due,
            interrupts,
        }
    }

    /// Raises what the event's processor has seen to what the lanes that it touches tell, its own
    /// requests among it. False only where what was seen of interrupts is as before.
    fn tell_by(
        &self,
        stand: &StandView,
        what: &What,
        lanes: &Touched,
        asks: &Asks,
        seen: &mut Seen,
    ) -> bool
        requires { IsPlanned self.now stand.now what.now lanes.now asks.now }
        ensures values { seen.new ≡ table 16 (λ c.
            max (value_at seen.old c) (value_at (told_values self.now stand.now what.now) c)) }
        ensures interrupts { result ≡ false → SameInterrupts seen.old seen.new }
    {
        let _what = what;
        let script = self.states.whole_script();
        let by_lanes = self
            .told
            .raise_over(script, lanes.as_slice(), stand.cpu(), seen);
        let interrupts = raise_own(seen, asks.as_slice(), stand.cpu(), self.next + 1) || by_lanes;
        seen.classes();
        interrupts
    }

    /// What the event leaves of the floor.
    fn leave(&mut self, stand: &StandView, event: &Event, lanes: &Touched, asks: &Asks)
        requires planned { IsPlanned self.old stand.now event.now.what lanes.now asks.now }
        requires event { event.now ≡ acted_event stand.now self.old.lanes event.now.what }
        ensures { self.new ≡ made stand.now event.now.what self.old }
    {
        let number = self.next;
        let script = self.states.whole_script();
        let touched = lanes.as_slice();
        let asked = asks.as_slice();
        self.next = number + 1;
        self.asked.raise_all(asked, number + 1);
        self.marks.mark_all(script.cpus, number, asked);
        self.told.tell(script, touched, asked, number + 1);
        self.states.leave(number, stand, event);
    }
}
