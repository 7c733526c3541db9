//! Which interrupt request is due.
ghost use Rattle.std.specs.Prelude.{◌≡◌, ◌<◌, All, find, true};
ghost use Rattle.nt_cpu.specs.Due.{above_level as above, greatest_due as greatest, is_unserved};

use crate::values::Values;
use nt_event::class;
use nt_floor::Seen;

/// The classes of interrupts, the greatest first; 12, that of released locks, is none.
const CLASSES: [u8; 11] = [class::IPI, class::CLOCK, 11, 10, 9, 8, 7, 6, 5, 4, 3];

/// Whether a request of the class was noticed and not served.
pub fn is_due(seen: &Seen, served: &Values, class: u8) -> bool
    requires { class < 16 }
    ensures { result ≡ is_unserved seen.now served.now class }
{
    served.get(class) < seen.get(class)
}

/// The first of these classes that is due.
fn first_due(classes: &[u8], seen: &Seen, served: &Values) -> Option<u8>
    requires { All (λ c. c < 16) classes.now }
    ensures { result ≡ find (is_unserved seen.now served.now) classes.now }
{
    for class in classes {
        if is_due(seen, served, *class) {
            return Some(*class);
        }
    }
    None
}

/// Leaves the greatest class of an interrupt that is due. Where all is the same as before, it is
/// the one known, and nothing is written.
#[inline(always)]
pub fn renew_due(due: &mut Option<u8>, same: bool, seen: &Seen, served: &Values)
    requires { same ≡ true → due.old ≡ greatest seen.now served.now }
    ensures { due.new ≡ greatest seen.now served.now }
{
    if !same {
        *due = first_due(&CLASSES, seen, served);
    }
}

/// The class, where it is above the level.
pub fn above_level(level: u8, due: Option<u8>) -> Option<u8>
    ensures { result ≡ above level due }
{
    match due {
        Some(class) if level < class => due,
        Some(_) | None => None,
    }
}
