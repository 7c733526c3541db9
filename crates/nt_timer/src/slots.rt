//! Where a due time that isn't reached stands: by the greatest digit of six bits in which it
//! differs from the time.
ghost use Rattle.std.specs.Prelude.{◌≡◌, ◌<◌};
ghost use Rattle.nt_timer.specs.Place.{IsSlotOf};
ghost use Rattle.nt_timer.specs.Slots.{slot_index};

/// How many digits of six bits hold every time.
const DIGITS: usize = 11;

/// A slot of the wheel.
#[derive(Clone, Copy, PartialEq, Eq, Debug)]
pub struct Slot {
    /// The level: the greatest place, from 0, at which the digits of six bits of the time and of
    /// the due time differ.
    pub level: u8,
    /// The slot of the level: that digit of the due time.
    pub slot: u8,
}

/// The slot of a due time that isn't reached.
pub(crate) fn slot_of(now: u64, due: u64) -> Slot
    requires { now < due }
    ensures { IsSlotOf now due result.level result.slot }
{
    let index = slot_index(now, due);
    Slot {
        level: (index / 64) as u8,
        slot: (index % 64) as u8,
    }
}

/// The number of the slot: 64 for each level below it, and the digit of the due time there.
pub(crate) fn slot_index(now: u64, due: u64) -> usize
    ensures value { result ≡ slot_index now due }
    ensures bound { result < 704 }
{
    let mut high_now = now;
    let mut high_due = due;
    for level in 0..DIGITS - 1 {
        if high_now / 64 == high_due / 64 {
            return 64 * level + (high_due % 64) as usize;
        }
        high_now /= 64;
        high_due /= 64;
    }
    64 * (DIGITS - 1) + high_due as usize
}
