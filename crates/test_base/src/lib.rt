//! Tests of the base, the words and the texts for people. Each module is named after the crate that
//! it tests.
#![tactic(auto)]

#[cfg(test)]
mod ask;
#[cfg(test)]
mod friendly;
#[cfg(test)]
mod history;
#[cfg(test)]
mod lab_words;
#[cfg(test)]
mod level;
#[cfg(test)]
mod outside;
#[cfg(test)]
mod people;
#[cfg(test)]
mod rounds;
