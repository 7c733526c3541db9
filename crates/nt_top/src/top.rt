//! The top call: from the words and the bytes in to the bytes out.
ghost use Rattle.std.specs.Prelude.{◌≡◌, ◌≢◌, IfOk, false, map, true, string_bytes};
ghost use Rattle.nt_words.specs.Forms.{IsWithin, names_live};
ghost use Rattle.nt_top.specs.Answer.{Asks, AsksBy, AsksFrom, text_of};
ghost use Rattle.nt_top.specs.Outcome.{memory_line, IsWritten, IsAnswered, HasCause};
ghost use Rattle.nt_outside.specs.Sides.{store, supply};
ghost use Rattle.nt_top.specs.Tasks.{IsSoundTask, reads};

use crate::answer::{Answer, answer_alone, ask_in, line, loaded, no_memory};
use crate::status::Status;
use crate::task::Task;
use crate::threads::answer_on_threads;
use nt_outside::{Gate, ReadRefusal, Sink, Source, WriteFault, read_all, write_all};
use nt_text::INPUT_LIMIT;
use nt_words::{Form, USAGE, WordsRefusal, form_of, is_live, words_have_one_form};
use std::alloc::Global;
use std::sync::Wait;
use std::thread::Threads;

/// What a form asks for from the source, or what is answered at once.
fn ask_from<S: Source>(alloc: Global, form: Form, source: &mut S) -> Result<Task, Answer>
    requires limit { IsWithin form }
    requires reads { reads form ≡ true }
    ensures asks { AsksFrom form
        (supply (S.left source.old) (S.taken source.old) (S.faults source.old))
        (supply (S.left source.new) (S.taken source.new) (S.faults source.new)) result }
    ensures sound { IfOk result IsSoundTask }
{
    match read_all(alloc, source, INPUT_LIMIT) {
        Ok(bytes) => ask_in(alloc, form, bytes.as_slice()),
        Err(ReadRefusal::Fault) => Err(line(Status::Read, "read fault\n")),
        Err(ReadRefusal::TooLong) => Err(line(Status::TooLong, "input too long\n")),
        Err(ReadRefusal::NoMemory) => Err(no_memory()),
    }
}

/// What a form asks for, or what is answered at once. Where it is a load, nothing is read.
fn ask_by<S: Source>(alloc: Global, form: Form, source: &mut S) -> Result<Task, Answer>
    requires { IsWithin form }
    ensures asks { AsksBy form
        (supply (S.left source.old) (S.taken source.old) (S.faults source.old))
        (supply (S.left source.new) (S.taken source.new) (S.faults source.new)) result }
    ensures sound { IfOk result IsSoundTask }
{
    match form {
        Form::Run { .. } => ask_from(alloc, form, source),
        Form::Live { .. } => ask_from(alloc, form, source),
        Form::Replay => ask_from(alloc, form, source),
        Form::Check => ask_from(alloc, form, source),
        Form::Load { seed, turns } => Err(loaded(alloc, seed, turns)),
        Form::Migrate => ask_from(alloc, form, source),
        Form::Verify => ask_from(alloc, form, source),
        Form::Shrink { .. } => ask_from(alloc, form, source),
        Form::Audit { .. } => ask_from(alloc, form, source),
    }
}

/// What the words and the source ask for, or what is answered at once. Where the words are no form,
/// nothing is read.
fn ask<S: Source>(alloc: Global, words: &[String], source: &mut S) -> Result<Task, Answer>
    ensures asks { Asks (map string_bytes words.now)
        (supply (S.left source.old) (S.taken source.old) (S.faults source.old))
        (supply (S.left source.new) (S.taken source.new) (S.faults source.new)) result }
    ensures sound { IfOk result IsSoundTask }
{
    match form_of(alloc, words) {
        Ok(form) => ask_by(alloc, form, source),
        Err(WordsRefusal::NoForm) => Err(line(Status::Usage, USAGE)),
        Err(WordsRefusal::NoMemory) => Err(no_memory()),
    }
}

/// Writes the text of an answer.
fn write<K: Sink>(answer: &Answer, sink: &mut K) -> Status
    requires { answer.now.status ≢ Status.Write }
    ensures { IsWritten answer.now.status (text_of answer.now.text)
        (store (K.held sink.old) (K.faults sink.old))
        (store (K.held sink.new) (K.faults sink.new)) result }
{
    match write_all(sink, answer.text.as_bytes()) {
        Ok(()) => answer.status,
        Err(WriteFault) => Status::Write,
    }
}

/// What is written and answered where memory was wanting before the words could be read: the line
/// of `Memory`, or with `Write` a front part of it.
pub fn starved<K: Sink>(sink: &mut K) -> Status
    ensures { IsWritten Status.Memory memory_line (store (K.held sink.old) (K.faults sink.old))
        (store (K.held sink.new) (K.faults sink.new)) result }
{
    write(&no_memory(), sink)
}

/// The program for words of which none is `live` or `audit`: `words` are those behind the program's
/// name. It waits for nobody and returns.
///
/// The forms are `run`, `replay`, `check`, `load`, `migrate`, `verify` and `shrink`. In this order:
/// `Usage` exactly where the words are no form, and then nothing is read. `load` reads nothing
/// either: its status is `Ok` and its text the summary of the robin run of the seed's load. For the
/// other forms `Read` comes only where the source's count of faults rose; `TooLong` exactly where
/// more than 33,554,432 bytes were taken; `Script` exactly where a line is refused, of the script
/// or of what stands behind it; `NoGoal`, of `shrink` alone, exactly where no DPC or APC object has
/// the goal's name, `TooMany`, of `shrink` alone, exactly where the schedule has more than 1,000
/// turns; `Schedule`, of `replay` exactly where the turns make no settled run, of `shrink` exactly
/// where a turn is refused; `NotDelivered`, of `shrink` alone, exactly where the turns don't
/// deliver the goal; `Illegal`, of `check` alone, exactly where the history is no settled run, with
/// the number at which it goes wrong; else `Ok`, with the report of the robin run for `run`, of the
/// schedule's run for `replay`, the line `legal` for `check`, the script in the newest version of
/// its text for `migrate`, what is found in the script for `verify`, and the shrunk schedule for
/// `shrink`.
///
/// Want of memory, `Memory`, may come at any place. The text or line of the status is written whole
/// by one `write_all`; where that fails, `Write`, and a front part of it stands.
pub fn plain<S: Source, K: Sink>(
    alloc: Global,
    words: &[String],
    source: &mut S,
    sink: &mut K,
) -> Status
    requires { names_live (map string_bytes words.now) ≡ false }
    ensures answered { IsAnswered (map string_bytes words.now)
        (supply (S.left source.old) (S.taken source.old) (S.faults source.old))
        (supply (S.left source.new) (S.taken source.new) (S.faults source.new))
        (store (K.held sink.old) (K.faults sink.old))
        (store (K.held sink.new) (K.faults sink.new)) result }
    ensures causes { HasCause (map string_bytes words.now)
        (supply (S.left source.old) (S.taken source.old) (S.faults source.old))
        (supply (S.left source.new) (S.taken source.new) (S.faults source.new))
        (store (K.held sink.old) (K.faults sink.old))
        (store (K.held sink.new) (K.faults sink.new)) result }
{
    words_have_one_form();
    let asked = ask(alloc, words, source);
    let answer = answer_alone(alloc, asked);
    write(&answer, sink)
}

/// The program: `words` are those behind its name, and what it writes goes to the sink.
///
/// The forms are those of [`plain`], which is called where none of the words is `live` or `audit`,
/// and `live` and `audit`: their status comes as that of `run`. With `Ok`, `live` writes the report
/// of a settled run of the script, which the script's processors made on threads, and `audit` the
/// audit of the robin run, which workers on threads worked out.
///
/// It may wait where [`is_live`](crate::is_live) holds of the words: each worker of `live` passes
/// the gate before each of its turns, and takes the locks of the lanes that the turn touches; each
/// worker of `audit` passes it before each item. Then what is said here holds if it returns.
pub fn ntrun<S: Source, K: Sink, G: Gate + Sync, R: Threads + Wait + Sync>(
    rt: &R,
    alloc: Global,
    words: &[String],
    source: &mut S,
    sink: &mut K,
    gate: &G,
) -> Status
    ensures answered { IsAnswered (map string_bytes words.now)
        (supply (S.left source.old) (S.taken source.old) (S.faults source.old))
        (supply (S.left source.new) (S.taken source.new) (S.faults source.new))
        (store (K.held sink.old) (K.faults sink.old))
        (store (K.held sink.new) (K.faults sink.new)) result }
    ensures causes { HasCause (map string_bytes words.now)
        (supply (S.left source.old) (S.taken source.old) (S.faults source.old))
        (supply (S.left source.new) (S.taken source.new) (S.faults source.new))
        (store (K.held sink.old) (K.faults sink.old))
        (store (K.held sink.new) (K.faults sink.new)) result }
{
    if !is_live(words) {
        return plain(alloc, words, source, sink);
    }
    words_have_one_form();
    let asked = ask(alloc, words, source);
    let answer = answer_on_threads(rt, alloc, asked, gate);
    write(&answer, sink)
}
