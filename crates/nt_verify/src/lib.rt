//! Which commands of a script will be refused, before any run of it.
//!
//! A [`Site`] is one use of a routine: as the routine of an interrupt, a DPC, an APC's kernel
//! routine and so on. [`sites`] lists those that a script declares. Whether a command is refused
//! depends on its site and its place in the routine alone: [`expect`] tells it by walking the
//! commands before it in one frame, without memory. [`verify`] lists all places that are refused.
//! [`ordered`] tells whether each routine acquires its spin locks in rising order, so that no
//! deadlock on them can come.
//!
//! Contracts see scripts, sites and findings as plain data.
#![tactic(auto)]

mod expected;
mod finding;
mod laws;
mod order;
mod refusals;
mod rows;
mod site;
mod walk;

pub use expected::{Expected, expect};
pub use finding::{Finding, verify};
pub use laws::{
    calls_are_refused_as_expected, ordered_scripts_spin_nowhere, scripts_without_findings_are_clean,
};
pub use order::ordered;
pub use rows::{
    lower_below_base, phases_begin_anew, raise_queue_lower, refused_levels, spin_refusals,
    two_orders,
};
pub use site::{Site, sites};
