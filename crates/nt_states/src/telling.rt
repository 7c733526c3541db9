//! What an event's own requests tell.
ghost use Rattle.std.specs.List.{list_any};
ghost use Rattle.std.specs.Prelude.{◌≡◌, ◌<◌, All, if◌then◌else◌};
ghost use Rattle.nt_event.specs.Lists.{table, value_at};
ghost use Rattle.nt_event.specs.Requests.{is_ask};
ghost use Rattle.nt_states.specs.LaneLists.{as_asks};

use nt_event::{Asked, CpuNo};

/// An event's own requests for a processor are told with a value, in place of what was told of
/// their classes.
pub fn tell_own(values: &mut [u64; 16], asks: &[Asked], p: CpuNo, to: u64)
    requires { All (λ a. a.class < 16) asks.now }
    ensures { values.new ≡ table 16
        (λ c. if list_any (is_ask p c) (as_asks asks.now) then to else value_at values.old c) }
{
    for ask in asks {
        if ask.cpu.0 == p.0 {
            values[usize::from(ask.class)] = to;
        }
    }
}
