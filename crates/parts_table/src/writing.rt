//! Answers of several parts, each in a line of its own. A case asks, and one of these writes: what
//! formats is expensive to prove, so few functions do.
use std::fmt::Debug;
use std::io;

/// Writes a call and its answer.
pub fn write<A: Debug>(rt: HostRuntime, call: &str, answer: &A) -> io::Result<()> {
    println!(rt; "  {call} {answer:?}")
}

/// Writes two calls and their answers.
pub fn write_both<A: Debug, B: Debug>(
    rt: HostRuntime,
    first: &str,
    answer: &A,
    second: &str,
    other: &B,
) -> io::Result<()> {
    println!(rt; "  {first} {answer:?}, {second} {other:?}")
}

/// Writes two values.
pub fn write_pair<A: Debug, B: Debug>(rt: HostRuntime, first: &A, second: &B) -> io::Result<()> {
    println!(rt; "  {first:?} {second:?}")
}

/// Writes that there is no such case.
pub fn no_such_case(rt: HostRuntime) -> io::Result<()> {
    println!(rt; "  no such case")
}
