// A whole text into a sink.
ghost use Rattle.std.specs.Prelude.{◌≡◌, ◌≤◌, OnOk, OnErr};
ghost use Rattle.std.specs.Io.KnownBytes.{append_known};
ghost use Rattle.nt_outside.specs.Bytes.{AddsFrontOf};
ghost use Rattle.nt_outside.specs.Counts.{last_count, Rose};

use crate::error::{Failed, WriteFault};
use crate::sink::Sink;

/// Adds all of `bytes` to the sink, and offers it at each turn all that are left.
///
/// `WriteFault` comes only where the sink's count of faults rose. Then the sink has got a front
/// part of the bytes, and not all of them. Takes no memory.
pub fn write_all<K: Sink>(sink: &mut K, bytes: &[u8]) -> Result<(), WriteFault>
    ensures added { OnOk result (K.held sink.new ≡ append_known (K.held sink.old) bytes.now) }
    ensures fault { OnErr result (Rose (K.faults sink.old) (K.faults sink.new)) }
    ensures front { OnErr result (AddsFrontOf bytes.now (K.held sink.old) (K.held sink.new)) }
    ensures never_falls { K.faults sink.old ≤ K.faults sink.new }
    ensures capped { K.faults sink.old ≤ last_count → K.faults sink.new ≤ last_count }
{
    let mut count = 0;
    while count < bytes.len() {
        match sink.give(&bytes[count..]) {
            Err(Failed) => return Err(WriteFault),
            Ok(n) => count += n,
        }
    }
    Ok(())
}
