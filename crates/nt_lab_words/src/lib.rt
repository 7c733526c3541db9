//! The words of `ntlab`'s command line: which lists of words ask for something, and for what.
//!
//! [`call_of`] tells what the words ask for, and [`file_of`] the file that they name. The
//! definitions are in `specs::Words`, those of options in `specs::Options`. All words are this
//! project's own (profile).
#![tactic(auto)]

mod options;
mod words;

pub use options::{OptionName, Options, OrderName};
pub use words::{
    Call, How, Order, Task, ThingKind, USAGE, USUAL, VERSION, Work, call_of, file_of, fourth_word,
    named_file, third_word,
};
