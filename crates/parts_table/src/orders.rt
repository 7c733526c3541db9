//! Calls in an order that no run makes, but that their conditions allow. Orders that a condition
//! refuses are in tools/planted.txt, of kind contracts.
mod apcs;
mod dpcs;
mod frames;
mod threads;
mod timers;

use std::io;

/// Writes the answers of a case of a part.
pub fn answer(rt: HostRuntime, part: &str, case: &str) -> io::Result<()> {
    match part {
        "frames" => frames::answer(rt, case),
        "dpcs" => dpcs::answer(rt, case),
        "apcs" => apcs::answer(rt, case),
        "threads" => threads::answer(rt, case),
        "timers" => timers::answer(rt, case),
        _ => println!(rt; "  no such part"),
    }
}
