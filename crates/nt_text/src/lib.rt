//! What the project's texts are made of: lines, fields, numbers and names, and what may be wrong
//! with a line.
//!
//! A text is lines, each ended by byte 10; [`Lines`] gives them in order. A line is fields with one
//! space between two; [`Line::fields`] tests that a line is whole and printable, and gives its
//! [`Fields`]. A field is tested by [`number`] and [`name`]. What is wrong with a line is a
//! [`ScriptKind`].
//!
//! [`put_field`] and [`put_number`] add fields of a line to a text, and [`put_digits`] the digits
//! of a number alone.
//!
//! Contracts see `Lines` as the list of the lines that are left and `Fields` as the list of the
//! fields that are left. That reading undoes printing is said by the lemmas of `proofs::Rows` and
//! `proofs::Decimals`: each text of rows has those rows as its lines, and no other text has them.
#![tactic(auto)]

mod field;
mod kind;
mod lines;
mod printing;

pub use field::{is_word, name, number};
pub use kind::{ScriptKind, What10};
pub use lines::{Fields, INPUT_LIMIT, Line, Lines, Row};
pub use printing::{put_digits, put_field, put_number, put_processor};
