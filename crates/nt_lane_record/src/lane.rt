//! One lane: what stands in it, and its record.
ghost use Rattle.std.specs.Prelude.{◌≡◌, ◌≤◌, ◌*◌, ◌^◌};
ghost use Rattle.nt_lane_record.specs.Held.{IsLastNoted, next_of};

use crate::record::{Holds, Record};
use nt_event::Plan;
use nt_mark::Shared;

/// What stands in a lane, with its record. Whenever the lock is free, the state is the one that was
/// noted last, and the time is at most as far as events of numbers up to the last one on its list
/// may have let it advance.
#[derive(Drop)]
pub struct Lane<N: Plan + Shared, S: Holds> {
    pub state: S,
    pub log: Record<N>,
    pub ghost noted: { IsLastNoted N.script (S.name state) (S.content state) log },
    pub ghost time: { S.time state ≤ next_of log.notes * 2 ^ 32 },
    pub ghost fits: { S.fits N.script state } by { S.fits_prop N.script state },
}
