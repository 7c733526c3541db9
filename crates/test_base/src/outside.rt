// Sources and sinks in memory, over pieces and failing calls; whole inputs at their limit; the
// standard streams.
ghost use Rattle.std.specs.Prelude.{◌≤◌};

use nt_outside::{
    Gate, MemorySink, MemorySource, OpenGate, ReadRefusal, Sink, Source, StdSink, StdSource,
    WriteFault, read_all, write_all,
};
use std::alloc::{AllocError, Global};
use std::process::Abort;
use std::test::Fail;

const TEXT: &[u8; 40] = b"the quick brown fox jumps over a lazy do";

// A source of these bytes, in pieces of this length, whose call `fails` fails.
fn source_of(
    alloc: Global,
    bytes: &[u8],
    piece: usize,
    fails: u64,
) -> Result<MemorySource, AllocError>
    requires { 1 ≤ piece }
{
    let bytes = bytes.to_vec(alloc)?;
    Ok(MemorySource::new(bytes, piece, [fails].to_vec(alloc)?))
}

// What is read from such a source.
fn read(
    alloc: Global,
    bytes: &[u8],
    piece: usize,
    fails: u64,
    limit: usize,
) -> Result<Vec<u8>, ReadRefusal>
    requires { 1 ≤ piece }
{
    match source_of(alloc, bytes, piece, fails) {
        Ok(mut source) => read_all(alloc, &mut source, limit),
        Err(_) => Err(ReadRefusal::NoMemory),
    }
}

// Whether just these bytes are read from such a source, or why none are.
fn reads(
    alloc: Global,
    bytes: &[u8],
    piece: usize,
    fails: u64,
    limit: usize,
) -> Result<bool, ReadRefusal>
    requires { 1 ≤ piece }
{
    match read(alloc, bytes, piece, fails, limit) {
        Ok(read) => Ok(read.as_slice() == bytes),
        Err(refusal) => Err(refusal),
    }
}

#[test]
fn limits(rt: HostRuntime) {
    let table = [
        (b"abc".as_slice(), 3, true),
        (b"abc".as_slice(), 2, false),
        (b"abc".as_slice(), usize::MAX, true),
        (b"a".as_slice(), 0, false),
        (b"".as_slice(), 0, true),
    ];
    for (bytes, limit, fits) in &table {
        let wanted = if *fits {
            Ok(true)
        } else {
            Err(ReadRefusal::TooLong)
        };
        for piece in &[1, 2, 3, 16] {
            let answer = reads(rt.alloc(), bytes, *piece, 100, *limit);
            assert_eq!(rt; answer, wanted, "{limit}");
        }
    }
}

#[test]
fn failing_reads(rt: HostRuntime) {
    // The number of calls: one for each piece, and one that finds the end.
    for (piece, calls) in &[(1, 41), (7, 7), (16, 4), (39, 3), (40, 2), (100, 2)] {
        for fails in 0..*calls {
            let answer = reads(rt.alloc(), TEXT, *piece, fails, 1000);
            assert_eq!(rt; answer, Err(ReadRefusal::Fault), "{piece} {fails}");
        }
        let answer = reads(rt.alloc(), TEXT, *piece, *calls, 1000);
        assert_eq!(rt; answer, Ok(true));
    }
}

// A sink of so much room, in pieces of this length, whose calls of these numbers fail.
fn sink_of(
    alloc: Global,
    room: usize,
    piece: usize,
    fails: &[u64],
) -> Result<MemorySink, AllocError>
    requires { 1 ≤ piece }
{
    MemorySink::new(alloc, room, piece, fails.to_vec(alloc)?)
}

// Whether a write of the text into the sink answers this, and so much of it stands there then.
fn holds(sink: &mut MemorySink, answer: Result<(), WriteFault>, taken: usize) -> bool {
    write_all(sink, TEXT) == answer && sink.bytes() == &TEXT[..taken.min(40)]
}

// Whether it does with such a sink.
fn writes(
    alloc: Global,
    piece: usize,
    fails: u64,
    answer: Result<(), WriteFault>,
    taken: usize,
) -> Result<bool, AllocError>
    requires { 1 ≤ piece }
{
    let mut sink = sink_of(alloc, 65536, piece, &[fails])?;
    Ok(holds(&mut sink, answer, taken))
}

#[test]
fn failing_writes(rt: HostRuntime) -> Result<(), Fail> {
    for (piece, calls) in &[(1, 40), (7, 6), (16, 3), (39, 2), (40, 1), (100, 1)] {
        for fails in 0..*calls {
            let taken = fails * piece;
            assert!(rt;
                writes(rt.alloc(), *piece, fails as u64, Err(WriteFault), taken)?,
                "{piece} {fails}"
            );
        }
        assert!(rt; writes(rt.alloc(), *piece, *calls as u64, Ok(()), 40)?);
    }
    Ok(())
}

// Whether a write of the text fills a sink of this room, and a write of nothing is taken then.
fn fills(alloc: Global, room: usize) -> Result<bool, AllocError> {
    let mut sink = sink_of(alloc, room, 16, &[])?;
    Ok(holds(&mut sink, Err(WriteFault), room) && sink.give(b"") == Ok(0))
}

// Whether the text has room in a sink of this room.
fn fits(alloc: Global, room: usize) -> Result<bool, AllocError> {
    let mut sink = sink_of(alloc, room, 16, &[])?;
    Ok(holds(&mut sink, Ok(()), 40))
}

#[test]
fn full_sinks(rt: HostRuntime) -> Result<(), Fail> {
    for room in &[0usize, 1, 16, 32, 39] {
        assert!(rt; fills(rt.alloc(), *room)?, "{room}");
    }
    assert!(rt; fits(rt.alloc(), 40)?);
    Ok(())
}

// How many of these bytes are read with this limit, or why none are.
fn count(alloc: Global, bytes: &[u8], limit: usize) -> Result<usize, ReadRefusal> {
    match read(alloc, bytes, usize::MAX, 16, limit) {
        Ok(read) => Ok(read.len()),
        Err(refusal) => Err(refusal),
    }
}

// Asserts that these bytes are read if as many are allowed, and with one fewer are too long.
fn reads_long(rt: &impl Abort, alloc: Global, long: &[u8]) {
    assert_eq!(rt; count(alloc, long, 33_554_432), Ok(long.len()));
    let answer = count(alloc, long, 33_554_431);
    assert_eq!(rt; answer, Err(ReadRefusal::TooLong));
}

// The pieces grow with the input: a long one takes few calls.
#[test]
fn long_inputs(rt: HostRuntime) -> Result<(), Fail> {
    let long = vec![in rt.alloc(); b'a'; 33_554_432]?;
    reads_long(&rt, rt.alloc(), long.as_slice());
    Ok(())
}

#[test]
fn standard_streams(rt: HostRuntime) -> Result<(), Fail> {
    let mut source = StdSource::new(rt.stdin());
    assert_eq!(rt; source.take(&mut []), Ok(0));
    let mut sink = StdSink::new(rt.stdout());
    assert_eq!(rt; sink.give(b""), Ok(0));
    assert_eq!(rt;
        write_all(&mut sink, b"a line to standard output\n"),
        Ok(())
    );
    Ok(())
}

#[test]
fn open_gate() {
    pass_all(&OpenGate);
}

// Passes a gate that workers on several threads share.
fn pass_all<G: Gate + Sync>(gate: &G) {
    for cpu in 0..8 {
        gate.pass(cpu, 160_000);
    }
}
