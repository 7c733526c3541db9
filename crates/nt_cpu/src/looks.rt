//! Looks at request words: which values rise.
ghost use Rattle.std.specs.Prelude.{◌≡◌, ◌≤◌, ◌==◌, length, nat_lt};
ghost use Rattle.std.specs.List.{list_any};
ghost use Rattle.nt_cpu.specs.Turns.{rise_above, rises as rises_of};

use nt_event::Rises;
use nt_floor::Seen;

/// Whether one of the values rises.
pub fn some_rises(values: &[u64]) -> bool
    ensures { result ≡ list_any (λ v. nat_lt 0 v) values.now }
{
    values.iter().any(|value| 0 < *value)
}

/// Whether each value that rises is above the one seen of its class.
fn all_above(values: &[u64], seen: &Seen) -> bool
    requires { length values.now ≤ 16 }
    ensures { result ≡ rise_above 0 values.now seen.now }
{
    for (class, value) in values.iter().enumerate() {
        if *value != 0 && *value <= seen.get(class as u8) {
            return false;
        }
    }
    true
}

/// Whether some value rises, and each that does is above what was seen.
pub fn rise(rises: &Rises, seen: &Seen) -> bool
    ensures { result ≡ rises_of rises.now.value seen.now }
{
    some_rises(&rises.value) && all_above(&rises.value, seen)
}
