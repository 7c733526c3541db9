//! Calls of [`Frames`] as data: what a list of them answers and leaves.
ghost use Rattle.std.specs.Prelude.{◌≡◌, IfErr, IfOk, OnErr, OnOk};
ghost use Rattle.nt_frame.specs.Calls.{MayCall, MayCallAll, answer_to, answers_to, left_by};
ghost use Rattle.nt_frame.specs.Calls.{left_by_all};

use crate::Frames;
use nt_event::{Again, Body, LockNo, Refusal, Region, ThreadNo};
use nt_level::Level;
use std::alloc::{AllocError, Global};

/// A call of the method of [`Frames`] with this name.
#[derive(Clone, Copy, PartialEq, Eq, Debug)]
pub enum FrameCall {
    Begin(Body, u64),
    Normal,
    Finish,
    Raise(Level),
    Lower(Level),
    Enter(Region),
    Leave(Region),
    SwitchTo(ThreadNo),
    SwitchAway,
    EndBase,
    Gone,
    SetAgain(Option<Again>),
    AdvancePlace,
    Acquired(LockNo, bool),
    Unlock(LockNo),
    Free,
}

/// What a call answers.
#[derive(Clone, Copy, PartialEq, Eq, Debug)]
pub enum FrameAnswer {
    /// It is done.
    Done,
    /// It is done, and tells whether it asks for kernel APCs.
    Asks(bool),
    /// It is done, and tells the lock that it freed, if it freed one.
    Frees(Option<LockNo>),
    /// The command is refused, and nothing is changed.
    Refused(Refusal),
}

/// Makes the call.
pub fn perform(frames: &mut Frames, call: &FrameCall) -> FrameAnswer
    requires { MayCall call.now frames.old }
    ensures answer { result ≡ answer_to call.now frames.old }
    ensures left { frames.new ≡ left_by call.now frames.old }
{
    match call {
        FrameCall::Begin(body, n) => frames.begin(*body, *n),
        FrameCall::Normal => return FrameAnswer::Asks(frames.normal()),
        FrameCall::Finish => return FrameAnswer::Asks(frames.finish()),
        FrameCall::Raise(l) => return done(frames.raise(*l)),
        FrameCall::Lower(l) => return done(frames.lower(*l)),
        FrameCall::Enter(r) => return done(frames.enter(*r)),
        FrameCall::Leave(r) => return asks(frames.leave(*r)),
        FrameCall::SwitchTo(t) => frames.switch_to(*t),
        FrameCall::SwitchAway => frames.switch_away(),
        FrameCall::EndBase => frames.end_base(),
        FrameCall::Gone => frames.gone(),
        FrameCall::SetAgain(a) => frames.set_again(*a),
        FrameCall::AdvancePlace => frames.advance_place(),
        FrameCall::Acquired(lock, done) => frames.acquired(*lock, *done),
        FrameCall::Unlock(lock) => return done(frames.unlock(*lock)),
        FrameCall::Free => return FrameAnswer::Frees(frames.free()),
    }
    FrameAnswer::Done
}

fn done(answer: Result<(), Refusal>) -> FrameAnswer
    ensures ok { OnOk answer (result ≡ FrameAnswer.Done) }
    ensures err { IfErr answer (λ why. result ≡ FrameAnswer.Refused why) }
{
    match answer {
        Ok(()) => FrameAnswer::Done,
        Err(why) => FrameAnswer::Refused(why),
    }
}

fn asks(answer: Result<bool, Refusal>) -> FrameAnswer
    ensures ok { IfOk answer (λ asks. result ≡ FrameAnswer.Asks asks) }
    ensures err { IfErr answer (λ why. result ≡ FrameAnswer.Refused why) }
{
    match answer {
        Ok(asks) => FrameAnswer::Asks(asks),
        Err(why) => FrameAnswer::Refused(why),
    }
}

/// Makes the calls in their order. Where there is no memory for the answers, none is made.
pub fn perform_all(
    alloc: Global,
    frames: &mut Frames,
    calls: &[FrameCall],
) -> Result<Vec<FrameAnswer>, AllocError>
    requires { MayCallAll calls.now frames.old }
    ensures answers { IfOk result (λ answers. answers.items ≡ answers_to calls.now frames.old) }
    ensures left { OnOk result (frames.new ≡ left_by_all calls.now frames.old) }
    ensures same { OnErr result (frames.new ≡ frames.old) }
{
    let mut answers = Vec::with_capacity(alloc, calls.len())?;
    for call in calls {
        if answers.push(perform(frames, call)).is_err() {
            unreachable!();
        }
    }
    Ok(answers)
}
