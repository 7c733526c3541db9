//! The top call: from the words and the bytes in to the bytes out.
ghost use Rattle.std.specs.Prelude.{◌≡◌, ◌≢◌, Some, map, string_bytes};
ghost use Rattle.nt_lab.specs.Replies.{memory_line, text_of};
ghost use Rattle.nt_outside.specs.Sides.{store, supply};
ghost use Rattle.nt_bench.specs.Friendly.{AreNamed};
ghost use Rattle.nt_bench.specs.Outcome.{IsAnswered, IsFoundBy, IsFoundFrom, IsFoundOf};
ghost use Rattle.nt_lab_words.specs.Words.{IsTask, IsWork, call_of};
ghost use Rattle.nt_bench.specs.Writing.{IsPut, IsUnopened, IsWritten, IsWrittenTo, stores};
ghost use Rattle.nt_bench.specs.Writing.{stream_of};

use crate::friendly::Named;
use crate::reply::{Stream, stream_of};
use crate::text::reply_to_bytes;
use nt_ask::Status;
use nt_lab::{Reply, line, no_memory};
use nt_lab_words::{
    Call, Task, USAGE, VERSION, Work, call_of, fourth_word, named_file, third_word,
};
use nt_outside::{ReadRefusal, Sink, Source, WriteFault, read_all, write_all};
use nt_people::shown_text;
use nt_text::INPUT_LIMIT;
use std::alloc::Global;

/// What is replied to the source.
fn reply_from<S: Source>(alloc: Global, work: Work, named: Named<'_>, source: &mut S) -> Reply
    requires { IsWork work }
    ensures { IsFoundFrom work named.entry
        (supply (S.left source.old) (S.taken source.old) (S.faults source.old))
        (supply (S.left source.new) (S.taken source.new) (S.faults source.new))
        result.status (text_of result.text) }
{
    match read_all(alloc, source, INPUT_LIMIT) {
        Ok(bytes) => reply_to_bytes(alloc, work, named, bytes.as_slice()),
        Err(ReadRefusal::Fault) => line(Status::Read, "read fault\n"),
        Err(ReadRefusal::TooLong) => line(Status::TooLong, "input too long\n"),
        Err(ReadRefusal::NoMemory) => no_memory(),
    }
}

/// What is replied to a task.
fn reply_of<S: Source>(alloc: Global, task: Task, named: Named<'_>, source: &mut S) -> Reply
    requires { IsTask task }
    ensures { IsFoundOf task named.entry
        (supply (S.left source.old) (S.taken source.old) (S.faults source.old))
        (supply (S.left source.new) (S.taken source.new) (S.faults source.new))
        result.status (text_of result.text) }
{
    match task {
        Task::Do(work) => reply_from(alloc, work, named, source),
        Task::Help => line(Status::Ok, USAGE),
        Task::Version => line(Status::Ok, VERSION),
    }
}

/// What the words name, where this is what they ask for.
fn named_by(words: &[String], call: Call) -> Named<'_>
    ensures { AreNamed (map string_bytes words.now) (Some call) result }
{
    Named {
        file: named_file(words, call),
        thing: third_word(words),
        level: fourth_word(words),
    }
}

/// What is replied to the words and the source. Where the words are no form, nothing is read.
fn reply<S: Source>(alloc: Global, words: &[String], source: &mut S) -> Reply
    ensures { IsFoundBy (map string_bytes words.now) (call_of (map string_bytes words.now))
        (supply (S.left source.old) (S.taken source.old) (S.faults source.old))
        (supply (S.left source.new) (S.taken source.new) (S.faults source.new))
        result.status (text_of result.text) }
{
    match call_of(words) {
        Some(call) => reply_of(alloc, call.task, named_by(words, call), source),
        None => line(Status::Usage, USAGE),
    }
}

/// Writes an answer.
fn write<K: Sink>(reply: &Reply, sink: &mut K) -> Status
    requires { reply.now.status ≢ Status.Write }
    ensures { IsWritten reply.now.status (text_of reply.now.text)
        (store (K.held sink.old) (K.faults sink.old))
        (store (K.held sink.new) (K.faults sink.new)) result }
{
    match write_all(sink, reply.text.as_bytes()) {
        Ok(()) => reply.status,
        Err(WriteFault) => Status::Write,
    }
}

/// Writes why there is no answer. Where it can't be written, the status says enough.
fn tell<E: Sink>(text: &[u8], sink: &mut E)
    ensures { IsPut text.now (store (E.held sink.old) (E.faults sink.old))
        (store (E.held sink.new) (E.faults sink.new)) }
{
    match write_all(sink, text) {
        Ok(()) | Err(WriteFault) => {}
    }
}

/// Writes the text of a reply where that of its status goes.
fn write_to<K: Sink, E: Sink>(reply: &Reply, out: &mut K, err: &mut E) -> Status
    requires { reply.now.status ≢ Status.Write }
    ensures { IsWrittenTo (stream_of reply.now.status) reply.now.status (text_of reply.now.text)
        (stores (K.held out.old) (K.faults out.old) (E.held err.old) (E.faults err.old))
        (stores (K.held out.new) (K.faults out.new) (E.held err.new) (E.faults err.new)) result }
{
    match stream_of(reply.status) {
        Stream::Out => write(reply, out),
        Stream::Err => {
            tell(reply.text.as_bytes(), err);
            reply.status
        }
    }
}

/// What is told and answered where memory was wanting before the words could be read.
pub fn starved<E: Sink>(err: &mut E) -> Status
    ensures status { result ≡ Status.Memory }
    ensures told { IsPut memory_line (store (E.held err.old) (E.faults err.old))
        (store (E.held err.new) (E.faults err.new)) }
{
    tell(b"no memory\n", err);
    Status::Memory
}

/// What is told and answered where the file of this name can't be opened: `Read`, and the name as
/// a terminal shows it; or `Memory`, where that is wanting.
pub fn unopened<E: Sink>(alloc: Global, name: &str, err: &mut E) -> Status
    ensures { IsUnopened name.now (store (E.held err.old) (E.faults err.old))
        (store (E.held err.new) (E.faults err.new)) result }
{
    match shown_text(alloc, name) {
        Ok(shown) => {
            tell(b"cannot open ", err);
            tell(shown.as_bytes(), err);
            tell(b"\n", err);
            Status::Read
        }
        Err(_) => starved(err),
    }
}

/// The program: `words` are those behind its name. Where they name a file, the source reads it.
///
/// `Usage` comes exactly where the words are no form, and then nothing is read, as with `--help`
/// and `--version`. Otherwise the source is read to its end: `Read` comes only where its count of
/// faults rose, `TooLong` where more than 33,554,432 bytes were taken, or the strict text of those
/// would be longer, `Refused` where a line is refused; a message says which one and why. Else what
/// is asked for is done with the text, and `Ok`, `Fails`, `NoExpectation`, `NoWitness`, `Unknown`
/// and `TooManyTurns` come as `reply_to` of nt_lab says.
///
/// Want of memory, `Memory`, may come at any place. An answer is written to `out` by one
/// `write_all`; where that fails, `Write`, and a front part of it stands. Why there is no answer is
/// written to `err`, and then nothing to `out`.
pub fn ntlab<S: Source, K: Sink, E: Sink>(
    alloc: Global,
    words: &[String],
    source: &mut S,
    out: &mut K,
    err: &mut E,
) -> Status
    ensures { IsAnswered (map string_bytes words.now)
        (supply (S.left source.old) (S.taken source.old) (S.faults source.old))
        (supply (S.left source.new) (S.taken source.new) (S.faults source.new))
        (stores (K.held out.old) (K.faults out.old) (E.held err.old) (E.faults err.old))
        (stores (K.held out.new) (K.faults out.new) (E.held err.new) (E.faults err.new)) result }
{
    let reply = reply(alloc, words, source);
    write_to(&reply, out, err)
}
