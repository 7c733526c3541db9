//! The due keys, in the order in which they expire.
ghost use Rattle.std.specs.Prelude.{◌≡◌, ◌+◌, ◌-◌, ◌<◌, length};
ghost use Rattle.std.specs.Vec.{vec_capacity, vec_len};
ghost use Rattle.nt_timer.specs.Due.{AreSorted, is_before, place_in, place_of, placed, without};

/// A due key: its due time, the number of the event that set it, and its own number.
#[derive(Clone, Copy, Debug)]
pub(crate) struct DueKey {
    pub(crate) due: u64,
    pub(crate) number: u64,
    pub(crate) key: usize,
}

/// Whether a key expires before another: by due time, then by the number of the event that set it,
/// then by its own number.
fn is_before(a: &DueKey, b: &DueKey) -> bool
    ensures { result ≡ is_before a.now b.now }
{
    a.due < b.due
        || (a.due == b.due && (a.number < b.number || (a.number == b.number && a.key < b.key)))
}

/// How many of the keys expire before this one: all, as where keys come due one after another, or
/// those up to the first that doesn't.
fn place_in(keys: &[DueKey], key: &DueKey) -> usize
    requires { AreSorted keys.now }
    ensures { result ≡ place_in key.now keys.now }
{
    let count = keys.len();
    if count > 0 && is_before(&keys[count - 1], key) {
        return count;
    }
    let mut place = 0;
    for other in keys {
        if !is_before(other, key) {
            return place;
        }
        place += 1;
    }
    place
}

/// Puts a key in its place.
pub(crate) fn put_in(keys: &mut Vec<DueKey>, key: DueKey)
    requires room { vec_len keys.old < vec_capacity keys.old }
    requires sorted { AreSorted keys.old.items }
    ensures items { keys.new.items ≡ placed key keys.old.items }
    ensures room { vec_capacity keys.new ≡ vec_capacity keys.old }
{
    let place = place_in(keys.as_slice(), &key);
    let inserted = keys.insert(place, key);
    if inserted.is_err() {
        unreachable!()
    }
}

/// The place of the key of this number, or how many keys there are.
fn place_of(keys: &[DueKey], key: usize) -> usize
    ensures { result ≡ place_of key keys.now }
{
    let mut place = 0;
    for other in keys {
        if other.key == key {
            return place;
        }
        place += 1;
    }
    place
}

/// Takes the key of this number out, where it stands there.
pub(crate) fn take_out(keys: &mut Vec<DueKey>, key: usize)
    ensures items { keys.new.items ≡ without key keys.old.items }
    ensures room { vec_capacity keys.new ≡ vec_capacity keys.old }
{
    let place = place_of(keys.as_slice(), key);
    if place < keys.len() {
        keys.remove(place);
    }
}
