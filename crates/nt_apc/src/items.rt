//! The pending inserts as a list in order of insertion.
ghost use Rattle.std.specs.List.{find, list_any, filter, position};
ghost use Rattle.std.specs.Prelude.{◌≡◌, ◌<◌, ◌≤◌, [], ◌∷◌, ◌++◌, false, not, vec_capacity};
ghost use Rattle.nt_event.specs.Apcs.{is_of_apc, is_of_kind as kind_is};
ghost use Rattle.nt_apc.specs.Objects.{AreObjects};

use nt_event::{ApcKind, ApcNo, Pick};

/// Whether the insert is of an APC of this kind.
fn is_of_kind(kind: ApcKind, pick: &Pick) -> bool
    ensures { result ≡ kind_is kind pick.now }
{
    kind == pick.kind
}

/// The oldest insert of an APC of this kind.
pub(crate) fn first_of_kind(items: &[Pick], kind: ApcKind) -> Option<Pick>
    ensures { result ≡ find (kind_is kind) items.now }
{
    items.iter().copied().find(|pick| is_of_kind(kind, pick))
}

/// Whether the object is inserted.
pub(crate) fn is_inserted(items: &[Pick], apc: ApcNo) -> bool
    ensures { result ≡ list_any (is_of_apc apc) items.now }
{
    items.iter().any(|pick| pick.apc.0 == apc.0)
}

/// The place of the object's insert.
fn place_of(items: &[Pick], apc: ApcNo) -> Option<usize>
    ensures { result ≡ position (is_of_apc apc) items.now }
{
    items.iter().position(|pick| pick.apc.0 == apc.0)
}

/// Puts the object's insert at the end: there is room for each object once.
pub(crate) fn put(items: &mut Vec<Pick>, pick: Pick)
    requires objects { AreObjects items.old.items }
    requires fresh { list_any (is_of_apc pick.apc) items.old.items ≡ false }
    requires below { pick.apc.0 < 256 }
    requires room { 256 ≤ vec_capacity items.old }
    ensures after { items.new.items ≡ items.old.items ++ pick ∷ [] }
    ensures kept { AreObjects items.new.items }
    ensures room { 256 ≤ vec_capacity items.new }
{
    match items.push(pick) {
        Ok(()) => {}
        Err(_) => unreachable!(),
    }
}

/// Takes the object's insert out, where it has one: the others keep their order.
pub(crate) fn take_out(items: &mut Vec<Pick>, apc: ApcNo) -> bool
    requires objects { AreObjects items.old.items }
    requires room { 256 ≤ vec_capacity items.old }
    ensures answer { result ≡ list_any (is_of_apc apc) items.old.items }
    ensures after { items.new.items ≡ filter (λ x. not (is_of_apc apc x)) items.old.items }
    ensures kept { AreObjects items.new.items }
    ensures room { 256 ≤ vec_capacity items.new }
{
    match place_of(items.as_slice(), apc) {
        Some(place) => {
            let _ = items.remove(place);
            true
        }
        None => false,
    }
}
