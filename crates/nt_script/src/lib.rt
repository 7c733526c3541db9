//! Scripts as text: what a driver writer declares, one line each.
//!
//! [`read`] answers the script and the names of a text, or the first bad line and what is wrong
//! with it. [`print`] gives the one text that `read` reads as an input. The grammar is a relation
//! between an input and a whole list of bytes (`specs::Text`: the rows of an input, and which
//! inputs are sound); reading is a function of the bytes (`specs::Reading`); two laws say that each
//! undoes the other. [`split_at`] finds where another text begins behind a script. What one line
//! says, and the names of the things, is the crate `nt_line`.
//!
//! The lines of a script come in the order of [`Place`]: `cpus`, `depth`, `threaded`, then
//! interrupt routines, DPC objects, timers, threads, APC objects, spin locks and routines with
//! their commands. The whole grammar is this project's own (profile).
//!
//! A text is of version 2 where its first line is `version 2`, else of version 1
//! (`specs::Versions`). Version 1 has no spin locks, none of the words `version`, `spinlock`,
//! `acquire` and `unlock`, and 8 processors at most; version 2 has 64. [`migrate`] takes an input
//! over into version 2.
#![tactic(auto)]

mod laws;
mod printing;
mod reading;
mod splitting;
mod versions;
mod walk;

pub use laws::{migration_adds_one_line, one_text, texts_both_ways, what_stands_behind_is_found};
pub use nt_line::{Keyword, Kind, Named, Names, Place, Verb, keyword_of, put_command};
pub use nt_text::{ScriptKind, What10};
pub use printing::print;
pub use reading::{ScriptRefusal, read};
pub use splitting::{Split, split_at};
pub use versions::migrate;
pub use walk::{Input, Stop};
