//! Why a thing of a script has not run yet.
#![tactic(auto)]

mod apcs;
mod asking;
mod fates;
mod inserts;
mod interrupts;
mod lines;
mod objects;
mod printing;
mod question;
mod reasons;
mod sought;
mod standing;
mod things;
mod threads;
mod timers;
mod times;
mod watch;
mod words;

pub use asking::why;
pub use fates::{Fate, Object};
pub use printing::print_reasons;
pub use reasons::{Away, Does, Pending, Reason, Request, Sort, Stood, Top};
pub use things::Thing;
pub use words::{read_interrupt, read_thing};
