//! The words of the command line: which lists of words are a form of the program, and which form
//! they are.
//!
//! A form is one command word with that command's options, the options before or behind it, each at
//! most once, as `--turns N` or `--turns=N`. [`form_of`] reads the words with `clap`. What a form
//! is stands in `specs/Forms.antt`, in words that no parser shares: the pieces of a list of words,
//! and what they have to be for each form.
#![tactic(auto)]

mod form;
mod goal_name;
mod laws;
mod option_name;
mod reading;
mod tidy;

pub use form::{Command, Form, GREATEST_SEED, MOST_WORKERS, USAGE, USUAL_WORKERS};
pub use goal_name::GoalName;
pub use laws::{usage_names_what_is_built, words_have_one_form};
pub use option_name::OptionName;
pub use reading::{WordsRefusal, form_of, is_live};
