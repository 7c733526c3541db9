//! The search through all states of a script that some schedule comes to.
#![tactic(auto)]

mod expanding;
mod failures;
mod flags;
mod found;
mod hunting;
mod judging;
mod machine;
mod parts;
mod plan;
mod rounding;
mod searching;
mod states;
mod stations;
mod stop;
mod ways;

pub use failures::Failure;
pub use found::{End, Found, Searched};
pub use hunting::{Hunted, hunt};
pub use rounding::{rounds_are_endless, turns_round};
pub use searching::search;
pub use states::{States, Way};
pub use stop::Stop;
