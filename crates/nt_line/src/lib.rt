//! One line of a script: its keyword, the fields behind it, and the names of the script's things.
//!
//! A line begins with a [`Keyword`]; [`fields`] says what each field behind it may be, [`command`]
//! and [`declarations`] read what the fields of a line say, and the `put_` calls print such a line.
//! [`Names`] are the names of a script's things. The grammar of a line is in `specs::Rows`: the row
//! of fields of a command and of what is declared; reading is a function of the fields
//! (`specs::Fields`, `specs::Commands`, `specs::Declarations`). How lines make a script is the
//! crate `nt_script`.
#![tactic(auto)]

mod column;
mod commands;
pub mod declarations;
pub mod fields;
mod keywords;
mod names;
mod printing;

pub use commands::command;
pub use keywords::{Keyword, Place, Verb, keyword_of, may_declare};
pub use names::{Kind, Named, Names};
pub use printing::{put_apc, put_command, put_dpc, put_isr, put_thread, put_timer};
