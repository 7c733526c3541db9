// The whole input as one list of bytes.
ghost use Rattle.std.specs.Prelude.{◌≡◌, ◌≢◌, ◌+◌, ◌<◌, ◌≤◌, List, ℕ, take, drop, vec_len, Ok, Err};
ghost use Rattle.std.specs.Prelude.{IsErrOf, IfOk, IfSome, OnOk, OnErr};
ghost use Rattle.std.specs.Io.KnownBytes.{prepend_known, IsAtEnd};
ghost use Rattle.nt_outside.specs.Bytes.{moved, IsLonger};
ghost use Rattle.nt_outside.specs.Counts.{last_count, counted, Rose, RoseBy};

use crate::error::{Failed, ReadRefusal};
use crate::source::Source;
use std::alloc::{AllocError, Global};

// How many bytes the first piece has room for. Each later one has as much room as was read before
// it.
const FIRST_PIECE: usize = 4096;

/// Reads all bytes that the source has left, which are at most `limit`.
///
/// `Fault` comes only where the source's count of faults rose, and `TooLong` exactly where more
/// than `limit` bytes were taken. What was taken before a refusal is gone. Each turn takes at least
/// one byte or is the last, and the pieces grow with the input, so the time is linear in it.
pub fn read_all<S: Source>(
    alloc: Global,
    source: &mut S,
    limit: usize,
) -> Result<Vec<u8>, ReadRefusal>
    ensures whole { IfOk result (λ v. IfSome (S.left source.old) (λ left. v.items ≡ left)) }
    ensures bytes { IfOk result
        (λ v. S.left source.old ≡ prepend_known v.items (S.left source.new)) }
    ensures end { OnOk result (IsAtEnd (S.left source.new)) }
    ensures limit { IfOk result (λ v. vec_len v ≤ limit) }
    ensures taken { IfOk result
        (λ v. S.taken source.new ≡ counted (S.taken source.old) (vec_len v)) }

    ensures fault { IsErrOf result ReadRefusal.Fault →
        Rose (S.faults source.old) (S.faults source.new) }
    ensures too_long { IsErrOf result ReadRefusal.TooLong → IsLonger limit (S.left source.old) }
    ensures too_many { IsErrOf result ReadRefusal.TooLong →
        RoseBy (limit + 1) (S.taken source.old) (S.taken source.new) }
    ensures otherwise { result ≢ Err ReadRefusal.TooLong →
        S.taken source.new ≤ S.taken source.old + limit }
    ensures gone { OnErr result
        ((lost : List ℕ) × (S.left source.old ≡ prepend_known lost (S.left source.new))) }

    ensures never_falls { S.faults source.old ≤ S.faults source.new }
    ensures capped { S.faults source.old ≤ last_count → S.faults source.new ≤ last_count }
{
    let mut bytes = Vec::new(alloc);
    let mut count = 0;
    loop {
        if count == bytes.len() {
            make_room(&mut bytes, limit).map_err(|_| ReadRefusal::NoMemory)?;
        }
        match take_behind(source, &mut bytes, count) {
            Err(Failed) => return Err(ReadRefusal::Fault),
            Ok(0) => break,
            Ok(n) => count += n,
        }
        if count > limit {
            return Err(ReadRefusal::TooLong);
        }
    }
    bytes.truncate(count);
    Ok(bytes)
}

// Makes the vector longer, to twice its length, but never longer than one byte more than the limit.
fn make_room(bytes: &mut Vec<u8>, limit: usize) -> Result<(), AllocError>
    requires { vec_len bytes.old ≤ limit }
    ensures longer { OnOk result (vec_len bytes.old < vec_len bytes.new) }
    ensures limit { OnOk result (vec_len bytes.new ≤ limit + 1) }
    ensures kept { OnOk result (take (vec_len bytes.old) bytes.new.items ≡ bytes.old.items) }
{
    let most = limit.saturating_add(1);
    let doubled = bytes.len().saturating_mul(2).max(FIRST_PIECE);
    bytes.resize(doubled.min(most), 0)
}

// Takes the next bytes to the place behind the first `count` ones, which stay.
fn take_behind<S: Source>(
    source: &mut S,
    bytes: &mut Vec<u8>,
    count: usize,
) -> Result<usize, Failed>
    requires { count < vec_len bytes.old }
    ensures length { vec_len bytes.new ≡ vec_len bytes.old }
    ensures kept { take count bytes.new.items ≡ take count bytes.old.items }
    ensures within { count + moved result ≤ vec_len bytes.old }
    ensures bytes { S.left source.old
        ≡ prepend_known (take (moved result) (drop count bytes.new.items)) (S.left source.new) }
    ensures taken { S.taken source.new ≡ counted (S.taken source.old) (moved result) }
    ensures end { result ≡ Ok 0 → IsAtEnd (S.left source.new) }
    ensures failed { OnErr result (Rose (S.faults source.old) (S.faults source.new)) }
    ensures never_falls { S.faults source.old ≤ S.faults source.new }
    ensures capped { S.faults source.new ≤ last_count }
{
    source.take(&mut bytes[count..])
}
