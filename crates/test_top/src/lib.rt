//! Tests of the top call of `ntrun`, of the work items that `audit` counts, and of words without
//! locks. Each module is named after the crate that it tests.
#![tactic(auto)]

#[cfg(test)]
mod mark;
#[cfg(test)]
mod top;
#[cfg(test)]
mod work;
