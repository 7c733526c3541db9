//! The seat of a processor as a floor: its acts take the locks of the lanes that they read and
//! touch.
use crate::acting::act_under;
use crate::seat::LaneSeat;
use nt_event::{Event, Job, Plan};
use nt_floor::{ActRefusal, Floor, Made, Seen};
use nt_frame::StandView;
use nt_mark::Shared;
use std::sync::Wait;

impl<N: Plan + Shared, R: Wait> Floor for LaneSeat<'_, '_, N, R> {
    ghost use Rattle.std.specs.Prelude.{◌≡◌};
    ghost use Rattle.std.proofs.Common.{refl};
    ghost use Rattle.nt_mark.specs.Names.{pass_view};
    ghost use Rattle.nt_lane.specs.Seats.{AreShownOn, FoundBy, found_later};
    ghost use Rattle.nt_states.specs.Reads.{job_lanes};

    ghost script = { λ x. N.script };

    ghost found = { λ x n e st f. FoundBy N.script (pass_view x.pass) n e st f };

    ghost shows = { λ x st j f.
        AreShownOn N.script (pass_view x.pass) f (job_lanes N.script st j) };

    ghost found_later = { λ x y n e st f g h.
        found_later N.script (pass_view x.pass) (pass_view y.pass) n e st f g.view h };

    ghost script_stays = { λ x y g. refl };

    fn act(
        &mut self,
        job: &Job,
        stand: &StandView,
        seen: &mut Seen,
        event: &mut Event,
    ) -> Result<Made, ActRefusal> {
        let made = act_under(
            self.rt,
            self.lanes,
            self.marks,
            &mut self.pass,
            job,
            stand,
            seen,
            event,
        )?;
        self.last = made.number;
        Ok(made)
    }
}
