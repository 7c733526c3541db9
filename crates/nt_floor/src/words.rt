//! Numbers and requests.
use nt_event::{CpuNo, Event};

/// What draws the numbers of events, and marks and looks at requests.
///
/// A request for a class of a processor is one more than the number of the event that asks for it.
/// The word of a processor and class is the greatest request for them so far.
pub trait Words {
    ghost use Rattle.std.specs.Prelude.{◌<◌, ◌≤◌, ℕ};
    ghost use Rattle.nt_floor.specs.Views.{View, HasWord, IsDrawn, IsMarked, IsLooked};

    /// What contracts see of it.
    ghost view: { Self → View };

    /// It drew this number.
    ghost drew: { Self → ℕ → Type 0 };

    /// The second is a later state of the first and knows all that it knew.
    ghost grows: { Self → Self → Type 0 };

    /// Draws the number of an event.
    fn draw(&mut self, event: &Event) -> u64
        requires { 1 ≤ (view self.old).drawable }
        ensures drawn { IsDrawn result event.now (view self.old) (view self.new) }
        ensures mine { drew self.new result }
        ensures grows { grows self.old self.new };

    /// Marks the event of a number that it drew as asking for a class of a processor.
    fn mark(&mut self, p: CpuNo, class: u8, n: u64)
        requires word { HasWord (view self.old) p class }
        requires mine { drew self.old n }
        ensures marked { IsMarked p class n (view self.old) (view self.new) }
        ensures grows { grows self.old self.new };

    /// Looks at the word of a processor and class.
    fn look(&mut self, p: CpuNo, class: u8) -> u64
        requires { HasWord (view self.old) p class }
        ensures looked { IsLooked p class result (view self.old) (view self.new) }
        ensures grows { grows self.old self.new };

    /// What was drawn stays drawn.
    ghost drew_later: { (x y : Self) (n : ℕ) → grows x y → drew x n → drew y n };

    ghost grows_same: { (x : Self) → grows x x };

    ghost grows_through: { (x y z : Self) → grows x y → grows y z → grows x z };
}
