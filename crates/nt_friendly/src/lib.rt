//! Friendly scripts: what people write by hand, and the strict text that it means.
//!
//! The readers of scripts and expectations take strict texts alone: one blank between two fields,
//! no comments, no blank lines, numbers for levels. A friendly text may have comments from a `#` to
//! the end of a line, blank lines, blanks and tabs as one likes, CR before the end of a line, byte
//! order marks, a last line without its end, and names of levels. [`tidy`] gives the strict text,
//! and for each of its lines the number of the line from which it comes. [`field_place`] finds a
//! field in a friendly line. The definition of the strict text is in `specs::Text`, that of fields
//! in `specs::Fields`, that of the places of levels in `specs::Levels`. What is friendly is this
//! project's own (profile).
#![tactic(auto)]

mod fields;
mod laws;
mod levels;
mod tidying;

pub use fields::field_place;
pub use laws::{
    each_line_has_its_number, fields_stand_at_their_places, levels_may_be_named, names_stay,
    strict_texts_stay,
};
pub use tidying::{Tidied, tidy};
