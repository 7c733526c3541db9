//! Tests of what people are told: why a thing has not run, what is left, and the top call of
//! `ntlab`. Each module is named after the crate that it tests.
#![tactic(auto)]

#[cfg(test)]
mod bench;
#[cfg(test)]
mod left;
#[cfg(test)]
mod why;
