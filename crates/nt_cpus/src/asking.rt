//! Whether the values of a look were asked for.
ghost use Rattle.std.specs.Prelude.{◌≡◌, ◌<◌, ◌-◌, ◌==◌, ◌||◌, length};
ghost use Rattle.nt_cpus.specs.Asking.{are_marked};

use nt_event::{CpuNo, Rises};
use nt_floor::OpenFloor;

/// Whether the value of a class does not rise, or is one more than the number of an event that was
/// marked for it.
fn was_asked<F: OpenFloor>(floor: &F, cpu: CpuNo, class: u8, value: u64) -> bool
    requires cpu { cpu.0 < (F.view floor.now).cpus }
    requires class { class < 16 }
    ensures { result ≡ ((value == 0) || (F.view floor.now).marked (value - 1) cpu class) }
{
    value == 0 || floor.asks(value - 1, cpu, class)
}

/// Whether each value that rises is one more than the number of an event that was marked for its
/// class.
pub(crate) fn were_asked<F: OpenFloor>(floor: &F, cpu: CpuNo, rises: &Rises) -> bool
    requires { cpu.0 < (F.view floor.now).cpus }
    ensures value { result ≡ are_marked (F.view floor.now) cpu 0 rises.now.value }
    ensures classes { length rises.now.value ≡ 16 }
{
    for class in 0..16u8 {
        if !was_asked(floor, cpu, class, rises.value[class as usize]) {
            return false;
        }
    }
    true
}
