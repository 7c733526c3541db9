//! Where things stand in the lists of a floor.
ghost use Rattle.std.specs.Prelude.{◌≡◌, ◌<◌, ◌^◌};
ghost use Rattle.nt_plain.specs.Places.{row_of};

use nt_event::CpuNo;

/// The row of a processor among those of an event or of a lane.
pub(crate) fn row_of(cpus: u8, n: usize, p: CpuNo) -> usize
    requires { row_of cpus n p < 2 ^ 32 }
    ensures { result ≡ row_of cpus n p }
{
    n * usize::from(cpus) + usize::from(p.0)
}
