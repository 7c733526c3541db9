//! Tests of single steps from a question to its answer. Each module is named after the crate that
//! it tests.
#![tactic(auto)]

#[cfg(test)]
mod ahead;
#[cfg(test)]
mod draw;
#[cfg(test)]
mod orders;
#[cfg(test)]
mod shown;
#[cfg(test)]
mod shrink;
#[cfg(test)]
mod view;
#[cfg(test)]
mod witness;
