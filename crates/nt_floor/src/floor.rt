//! Events that touch lanes.
use crate::seen::Seen;
use crate::words::Words;
use nt_event::{ActRefusal, Event, Job, Made};
use nt_frame::StandView;

/// Makes events that touch what several processors share.
pub trait Floor: Words {
    ghost use Rattle.std.specs.Prelude.{◌≡◌, ◌≤◌, ℕ, false, true, IfErr, IfOk, IsTrue, OnErr};
    ghost use Rattle.std.specs.Prelude.{IsErrOf};
    ghost use Rattle.nt_event.specs.declared.events.Event.{Event};
    ghost use Rattle.nt_event.specs.declared.events.Rises.{Rises};
    ghost use Rattle.nt_event.specs.declared.jobs.Job.{Job};
    ghost use Rattle.nt_event.specs.declared.jobs.Stand.{Stand};
    ghost use Rattle.nt_event.specs.declared.scripts.Script.{Script};
    ghost use Rattle.nt_event.specs.Acts.{Found, IsActed, IsMet, IsRefused, StandFits, acted_of};
    ghost use Rattle.nt_event.specs.Acts.{job_fits};
    ghost use Rattle.nt_floor.specs.Seen.{SameInterrupts};
    ghost use Rattle.nt_floor.specs.Views.{IsMoved, IsTold, IsUnmoved, Tells};

    /// The script.
    ghost script: { Self → Script };

    /// The event of this number was made by a processor that stood so, in these states of its
    /// lanes.
    ///
    /// A floor that tells its states need say nothing here: `IsMoved` ties what was found to them.
    /// Where a floor doesn't tell them, as one over locked lanes, this alone ties it to what other
    /// events left, and has to mean: the number was drawn by this floor for this event of a
    /// processor that stood so, touching these lanes; and on each lane that it touches the state
    /// found, with what the lane tells of requests, is the one noted last on that lane's list
    /// before the number, the opening one where none was. What is found of lanes that it doesn't
    /// touch means nothing. It lasts (`found_later`). With a weaker meaning an act could answer an
    /// event of states that no lane ever had.
    ghost found: { Self → ℕ → Event → Stand → Found → Type 0 };

    /// These are the last states that it knows of the lanes of this job, for a processor that
    /// stands so: for a refusal what `found` is for an event. A floor that doesn't tell its states
    /// has to mean, on each lane that the job reads, the state that was learned last of the lane's
    /// list.
    ghost shows: { Self → Stand → Job → Found → Type 0 };

    /// Makes the event of a job for a processor that stands so, and marks exactly its asks. It
    /// writes the event where the caller keeps it, and raises what the processor has seen to what
    /// the touched lanes tell it.
    ///
    /// The event is the one of the job in the states that were found; where the floor tells its
    /// states, it is made in those, and they are afterwards what the event leaves of them. After a
    /// refusal no event was made or written. A floor that is alone finds memory.
    fn act(
        &mut self,
        job: &Job,
        stand: &StandView,
        seen: &mut Seen,
        event: &mut Event,
    ) -> Result<Made, ActRefusal>
        requires room { 1 ≤ (Self.view self.old).drawable }
        requires job { IsTrue (job_fits (script self.old) job.now) }
        requires stand { StandFits (script self.old) stand.now }
        requires met { IsMet (script self.old) (Self.view self.old).states stand.now job.now }

        ensures event { IfOk result (λ m.
            (f : Found) × (told : Rises) × found self.new m.number event.new stand.now f ×
            (IsActed (script self.old) f stand.now job.now (acted_of m event.new told) ×
            (IsMoved (script self.old) m.number event.new stand.now f (Self.view self.old)
            (Self.view self.new) ×
            IsTold stand.now told seen.old seen.new (Self.view self.new)))) }
        ensures interrupts { IfOk result
            (λ m. m.interrupts ≡ false → SameInterrupts seen.old seen.new) }

        ensures cause { IfErr result (λ r.
            (f : Found) × shows self.new stand.now job.now f ×
            (Tells (Self.view self.old).states f.lanes ×
            IsRefused (script self.old) f stand.now job.now r)) }
        ensures refused { OnErr result (IsUnmoved (Self.view self.old) (Self.view self.new)) }
        ensures unwritten { OnErr result (event.new ≡ event.old) }
        ensures unseen { OnErr result (seen.new ≡ seen.old) }
        ensures memory { (Self.view self.old).alone ≡ true → IsErrOf result ActRefusal.NoMemory →
            ⊥ }

        ensures script { script self.new ≡ script self.old }
        ensures grows { Self.grows self.old self.new };

    /// What was found stays found.
    ghost found_later: { (x y : Self) (n : ℕ) (e : Event) (st : Stand) (f : Found) →
        Self.grows x y → found x n e st f →
        found y n e st f };

    /// It stays a floor of the same script.
    ghost script_stays: { (x y : Self) → Self.grows x y → script y ≡ script x };
}
