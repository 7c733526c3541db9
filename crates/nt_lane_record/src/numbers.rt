//! The numbers of the lanes that an event touches.
ghost use Rattle.std.specs.List.Sorted.{IsStrictlyIncreasing};
ghost use Rattle.std.specs.Prelude.{◌≡◌, ◌<◌, ◌≤◌, ◌∷◌, [], All, IsTrue, length, map};
ghost use Rattle.nt_event.specs.Lanes.{Lanes, lane_count, lane_number as number_of, what_lanes};
ghost use Rattle.nt_event.specs.Script.{fits};
ghost use Rattle.nt_states.specs.LaneLists.{LaneFits};

use nt_event::{Lane, Script, What};
use nt_frame::StandView;
use nt_states::Touched;
use std::marker::Model;

/// Lane numbers, at most three. Contracts see them as a list.
#[derive(Drop)]
pub struct Numbers {
    numbers: [u32; 3],
    count: usize,
}

impl Model for Numbers {
    ghost use Rattle.std.specs.Prelude.{◌≤◌, List, take, ℕ};

    ghost Value = { List ℕ };

    ghost view = { λ a. take a.count a.numbers };

    ghost invariant = { λ a. a.count ≤ 3 };
}

impl Numbers {
    /// The numbers in order.
    pub fn as_slice(&self) -> &[u32]
        ensures { result.now ≡ self.now }
    {
        &self.numbers[..self.count]
    }

    fn none() -> Numbers
        ensures { result ≡ [] }
    {
        Numbers {
            numbers: [0; 3],
            count: 0,
        }
    }

    fn one(a: u32) -> Numbers
        ensures { result ≡ a ∷ [] }
    {
        Numbers {
            numbers: [a, 0, 0],
            count: 1,
        }
    }

    fn two(a: u32, b: u32) -> Numbers
        ensures { result ≡ a ∷ b ∷ [] }
    {
        Numbers {
            numbers: [a, b, 0],
            count: 2,
        }
    }

    fn three(a: u32, b: u32, c: u32) -> Numbers
        ensures { result ≡ a ∷ b ∷ c ∷ [] }
    {
        Numbers {
            numbers: [a, b, c],
            count: 3,
        }
    }
}

/// The numbers of at most three lanes of the script.
fn numbers_of(script: &Script, lanes: &[Lane]) -> Numbers
    requires fits { IsTrue (fits script.now) }
    requires named { All (LaneFits script.now) lanes.now }
    requires few { length lanes.now ≤ 3 }
    ensures { result ≡ map (number_of script.now) lanes.now }
{
    match lanes.len() {
        0 => Numbers::none(),
        1 => Numbers::one(lane_number(script, lanes[0])),
        2 => Numbers::two(lane_number(script, lanes[0]), lane_number(script, lanes[1])),
        3 => Numbers::three(
            lane_number(script, lanes[0]),
            lane_number(script, lanes[1]),
            lane_number(script, lanes[2]),
        ),
        _ => unreachable!(),
    }
}

/// The number of a lane of the script, which is also its place in the order in which locks are
/// taken.
fn lane_number(script: &Script, lane: Lane) -> u32
    requires fits { IsTrue (fits script.now) }
    requires lane { LaneFits script.now lane }
    ensures { result ≡ number_of script.now lane }
{
    lane.number(script) as u32
}

/// The numbers of the lanes that an event touches. They rise, as the locks are taken, and each is
/// one of the script's.
pub fn touched_numbers(script: &Script, stand: &StandView, what: &What, lanes: &Touched) -> Numbers
    requires fits { IsTrue (fits script.now) }
    requires named { All (LaneFits script.now) lanes.now }
    requires touched { (l : Lanes) × (lanes.now ≡ what_lanes script.now stand.now what.now l) }
    ensures numbers { result ≡ map (number_of script.now) lanes.now }
    ensures rising { IsStrictlyIncreasing result }
    ensures within { All (λ x. x < lane_count script.now) result }
{
    let _stand = stand;
    let _what = what;
    numbers_of(script, lanes.as_slice())
}
