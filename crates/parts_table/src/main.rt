//! What the parts of the machine answer, one case a line of the input. What is written for a case
//! is its line, and the answers of the part's calls, each in a line that begins with two spaces.
//! What is wanted is in `stdout`: the values of the rules and of the calls' clauses, worked out by
//! hand.
//!
//! A line that begins with `== ` is a heading and is written again: it says what the cases below it
//! are. A case is the name of a part and of a case of it, or, of the timer wheel, the name of a
//! case alone.
#![tactic(auto)]

mod apcs;
mod data;
mod dpc;
mod frames;
mod orders;
mod thread;
mod timers;
mod wheel;
mod writing;

use std::io;

/// What the cases below a heading are.
#[derive(Clone, Copy)]
enum Group {
    /// The calls of each part.
    Parts,
    /// Slots of the timer wheel.
    Wheel,
    /// Calls in an order that no run makes.
    Orders,
}

/// The group that a heading begins, if the line is one.
fn heading(line: &str) -> Option<Group> {
    match line {
        "== parts" => Some(Group::Parts),
        "== wheel" => Some(Group::Wheel),
        "== orders" => Some(Group::Orders),
        _ => None,
    }
}

/// Writes the answers of a case of a part.
fn answer(rt: HostRuntime, part: &str, case: &str) -> io::Result<()> {
    match part {
        "data" => data::answer(rt, case),
        "frames" => frames::answer(rt, case),
        "dpc" => dpc::answer(rt, case),
        "apcs" => apcs::answer(rt, case),
        "thread" => thread::answer(rt, case),
        "timers" => timers::answer(rt, case),
        _ => println!(rt; "  no such part"),
    }
}

/// Writes the answers of a case with the name of its part.
fn put_named(rt: HostRuntime, group: Group, entry: &str) -> io::Result<()> {
    match (group, entry.split_once(' ')) {
        (Group::Parts, Some((part, case))) => answer(rt, part, case),
        (Group::Orders, Some((part, case))) => orders::answer(rt, part, case),
        _ => println!(rt; "  no case"),
    }
}

/// Writes the answers of a case.
fn put_case(rt: HostRuntime, group: Group, entry: &str) -> io::Result<()> {
    match group {
        Group::Wheel => wheel::answer(rt, entry),
        Group::Parts | Group::Orders => put_named(rt, group, entry),
    }
}

/// Writes a line of the input, and the answers of the case that it is.
fn put_line(rt: HostRuntime, group: &mut Group, entry: &str) -> io::Result<()> {
    println!(rt; "{entry}")?;
    match heading(entry) {
        Some(next) => *group = next,
        None => put_case(rt, *group, entry)?,
    }
    Ok(())
}

fn main(rt: HostRuntime) -> io::Result<()> {
    let mut group = Group::Parts;
    for line in rt.lines(rt.alloc()) {
        let entry = line?;
        put_line(rt, &mut group, entry.as_str())?;
    }
    Ok(())
}
