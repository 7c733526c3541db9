//! Events that touch lanes.
ghost use Rattle.std.specs.Prelude.{◌≡◌, ◌<◌, ◌≤◌, ℕ, true, IfErr, OnOk, IsErrOf, OnErr};
ghost use Rattle.nt_event.specs.Acting.{IsDue};
ghost use Rattle.nt_event.specs.Own.{stand_in};
ghost use Rattle.nt_event.specs.declared.acts.ActRefusal.{ActRefusal};
ghost use Rattle.nt_event.specs.Acts.{Found, IsRefused};
ghost use Rattle.nt_floor.specs.Views.{IsUnmoved, Tells};
ghost use Rattle.nt_cpu.specs.GoodTasks.{GoodJob};
ghost use Rattle.nt_cpu.specs.Steps.{Knows};
ghost use Rattle.nt_cpu.specs.Turns.{IsShared, Serves};

use crate::cpu::Cpu;
use crate::due::renew_due;
use nt_event::{Event, Job};
use nt_floor::{ActRefusal, Floor};
use nt_frame::StandView;

impl<'s> Cpu<'s> {
    /// Has the floor make the event of a job, takes it up, and writes it; after a refusal nothing
    /// was written.
    pub(crate) fn make_shared<F: Floor>(
        &mut self,
        floor: &mut F,
        job: Job,
        event: &mut Event,
    ) -> Result<(), ActRefusal>
        requires room { self.old.own.made < self.old.limit }
        requires script { F.script floor.old ≡ self.old.script }
        requires serves { Serves self.old (F.view floor.old) }
        requires due { IsDue self.old.script self.old.cpu self.old.own job }
        requires good { GoodJob self.old job }
        ensures ok { OnOk result ((f : Found) × (n : ℕ) ×
            (IsShared self.old self.new job f n event.new (F.view floor.old) (F.view floor.new) ×
            F.found floor.new n event.new (stand_in self.old.cpu self.old.own) f)) }
        ensures err { IfErr result (λ r.
            (f : Found) × F.shows floor.new (stand_in self.old.cpu self.old.own) job f ×
            (Tells (F.view floor.old).states f.lanes ×
            IsRefused self.old.script f (stand_in self.old.cpu self.old.own) job r)) }
        ensures same { OnErr result
            ((self.new ≡ self.old) × IsUnmoved (F.view floor.old) (F.view floor.new)) }
        ensures unwritten { OnErr result (event.new ≡ event.old) }
        ensures memory { (F.view floor.old).alone ≡ true → IsErrOf result ActRefusal.NoMemory → ⊥ }
        ensures knows { Knows self.new (F.view floor.new) }
        ensures script { F.script floor.new ≡ F.script floor.old }
        ensures grows { F.grows floor.old floor.new }
    {
        self.sound();
        let stand = StandView::new(self.cpu, &self.frames, self.kept.sweep);
        let made = floor.act(&job, &stand, &mut self.seen, event)?;
        renew_due(
            &mut self.due,
            !made.interrupts,
            &self.seen,
            &self.kept.served,
        );
        self.take_up(event, made.number, made.due);
        Ok(())
    }
}
