//! `verify`: which commands are refused wherever they are reached, and the order of locks.
use super::{RAISE_QUEUE_LOWER, gives};
use nt_top::Status;
use std::test::Fail;

/// A thread raises to a lower level than its own, and lowers to a higher one.
const WRONG_LEVELS: &str =
    "cpus 1\nthread main 0 body\nroutine body\nraise 2\nraise 1\nlower 3\nexit\nroutine q\nexit\n";

/// A DPC lowers the level below its base.
const BELOW_BASE: &str =
    "cpus 1\ndpc d work\nthread main 0 body\nroutine work\nlower 1\nexit\nroutine body\nraise 2\nqueue d\nlower 0\nexit\n";

/// Two threads acquire two locks in opposite order.
const OPPOSITE: &str =
    "version 2\ncpus 2\nthread a 0 ra\nthread b 1 rb\nspinlock j\nspinlock k\nroutine ra\nacquire j\nacquire k\nexit\nroutine rb\nacquire k\nacquire j\nexit\n";

#[test]
fn refusals_are_found(rt: HostRuntime) -> Result<(), Fail> {
    let thread =
        "base main 1 level 2: 5 NotGreater\nbase main 2 level 2: 6 NotLess\nlocks ordered\n";
    assert!(rt;
        gives(
            &rt,
            &["verify"],
            WRONG_LEVELS.as_bytes(),
            Status::Ok,
            thread
        )?
    );
    let dpc = "dpc d 0 level 2: 7 BelowBase\nlocks ordered\n";
    assert!(rt; gives(&rt, &["verify"], BELOW_BASE.as_bytes(), Status::Ok, dpc)?);
    Ok(())
}

#[test]
fn scripts_without_refusals_are_clean(rt: HostRuntime) -> Result<(), Fail> {
    let ordered = "clean\nlocks ordered\n";
    let input = RAISE_QUEUE_LOWER.as_bytes();
    assert!(rt; gives(&rt, &["verify"], input, Status::Ok, ordered)?);
    let unordered = "clean\nlocks unordered\n";
    assert!(rt; gives(&rt, &["verify"], OPPOSITE.as_bytes(), Status::Ok, unordered)?);
    Ok(())
}
