//! Names of things. A number that names nothing is shown as `?`.
ghost use Rattle.nt_script.specs.Sound.{IsSound};

use nt_event::{ApcNo, DpcNo, LockNo, ThreadNo, TimerNo};
use nt_script::Input;

const NONE: &str = "?";

/// The name of a DPC object.
pub(crate) fn dpc(input: &Input, number: DpcNo) -> &str
    requires { IsSound input.now }
{
    if usize::from(number.0) < input.script.dpcs.len() {
        input.names.dpc(number)
    } else {
        NONE
    }
}

/// The name of a timer.
pub(crate) fn timer(input: &Input, number: TimerNo) -> &str
    requires { IsSound input.now }
{
    if usize::from(number.0) < input.script.timers.len() {
        input.names.timer(number)
    } else {
        NONE
    }
}

/// The name of a thread.
pub(crate) fn thread(input: &Input, number: ThreadNo) -> &str
    requires { IsSound input.now }
{
    if usize::from(number.0) < input.script.threads.len() {
        input.names.thread(number)
    } else {
        NONE
    }
}

/// The name of an APC object.
pub(crate) fn apc(input: &Input, number: ApcNo) -> &str
    requires { IsSound input.now }
{
    if usize::from(number.0) < input.script.apcs.len() {
        input.names.apc(number)
    } else {
        NONE
    }
}

/// The name of a spin lock.
pub(crate) fn lock(input: &Input, number: LockNo) -> &str
    requires { IsSound input.now }
{
    if number.0 < input.script.locks {
        input.names.lock(number)
    } else {
        NONE
    }
}
