//! The workbench: the top call of `ntlab`, from the words of its command line and the bytes of a
//! friendly text to the bytes of its output and a status.
//!
//! [`file_of`] names the file that the words name. [`ntlab`] reads the text, makes it strict, does
//! what is asked for, and writes an answer, or on standard error why there is none. What a call
//! finds and writes is defined in `specs::Outcome`.
#![tactic(auto)]

mod asking;
mod friendly;
mod reasons;
mod reply;
mod running;
mod text;
mod tidying;
mod top;
mod unshown;

pub use nt_ask::Status;
pub use nt_lab_words::file_of;
pub use top::{ntlab, starved, unopened};
