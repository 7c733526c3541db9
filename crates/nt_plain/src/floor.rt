//! The floor in memory as words and as a floor.
use crate::plain::PlainFloor;
use nt_event::{CpuNo, Event, Job};
use nt_floor::{ActRefusal, Floor, Made, Seen, Words};
use nt_frame::StandView;

impl<'s> Words for PlainFloor<'s> {
    ghost use Rattle.std.specs.Prelude.{◌≡◌, ◌<◌, ◌≤◌};
    ghost use Rattle.std.proofs.Common.{arith, refl, ◌∙◌};
    ghost use Rattle.nt_plain.specs.States.{view_of};

    ghost view = { view_of };

    ghost drew = { λ x n. n < x.next };

    ghost grows = { λ x y. (x.next ≤ y.next) × (y.script ≡ x.script) };

    ghost drew_later = { λ x y n g d. Prim.omega (arith, d, g.0) };

    ghost grows_same = { λ x. (Prim.omega arith, refl) };

    ghost grows_through = { λ x y z g h. (Prim.omega (arith, g.0, h.0), h.1 ∙ g.1) };

    fn draw(&mut self, event: &Event) -> u64 {
        let _event = event;
        self.kept();
        self.draw_number()
    }

    fn mark(&mut self, p: CpuNo, class: u8, n: u64) {
        self.kept();
        self.note(p, class, n);
    }

    fn look(&mut self, p: CpuNo, class: u8) -> u64 {
        self.kept();
        self.word(p, class)
    }
}

impl<'s> Floor for PlainFloor<'s> {
    ghost use Rattle.std.specs.Prelude.{◌≡◌};
    ghost use Rattle.std.proofs.Common.{◌∙◌};

    ghost script = { λ x. x.script };

    ghost found = { λ x n e st f. Unit {0} };

    ghost shows = { λ x st job f. Unit {0} };

    ghost found_later = { λ x y n e st f g h. h };

    ghost script_stays = { λ x y g. g.1 };

    fn act(
        &mut self,
        job: &Job,
        stand: &StandView,
        seen: &mut Seen,
        event: &mut Event,
    ) -> Result<Made, ActRefusal> {
        self.kept();
        self.kinds();
        match self.decide(job, stand, &mut event.what) {
            Ok(()) => Ok(self.make(stand, seen, event)),
            Err(refusal) => Err(refusal),
        }
    }
}
