//! What the DPC objects and queues of a script, its threads and the floor in memory answer, one
//! case a line of the input: the name of one of these, and of a case of it. What is written for a
//! case is its line, and the answers of the calls, each in a line that begins with two spaces. What
//! is wanted stands in `stdout`: the values of the rules, worked out by hand.
#![tactic(auto)]

mod dpcs;
mod floor;
mod scripts;
mod threads;

use std::io;

/// Writes the answers of a case.
fn answer(rt: HostRuntime, part: &str, case: &str) -> io::Result<()> {
    match part {
        "dpcs" => dpcs::answer(rt, case),
        "threads" => threads::answer(rt, case),
        "floor" => floor::answer(rt, case),
        _ => println!(rt; "  no such part"),
    }
}

/// Writes a line of the input, and the answers of its case.
fn put_line(rt: HostRuntime, entry: &str) -> io::Result<()> {
    println!(rt; "{entry}")?;
    match entry.split_once(' ') {
        Some((part, case)) => answer(rt, part, case),
        None => println!(rt; "  no case"),
    }
}

fn main(rt: HostRuntime) -> io::Result<()> {
    for line in rt.lines(rt.alloc()) {
        let entry = line?;
        put_line(rt, entry.as_str())?;
    }
    Ok(())
}
