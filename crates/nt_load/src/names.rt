//! The names of the load's things.
ghost use Rattle.std.specs.Prelude.{◌≡◌, ◌<◌, ℕ, None, IfOk, OnOk, string_bytes};
ghost use Rattle.nt_line.specs.NameLists.{meaning, no_names};
ghost use Rattle.nt_load.specs.Load.{load_names, object_names, spelled, thing_names, with_spelled};

use nt_line::{Kind, Names};
use std::alloc::{AllocError, Global};

/// The name of a letter and a number.
fn spell(alloc: Global, letter: &str, i: u16) -> Result<String, AllocError>
    ensures { IfOk result (λ name. string_bytes name ≡ spelled letter.now i) }
{
    format!(in alloc; "{letter}{i}")
}

/// Names `count` things of a kind, each by the letter and a number from 0 on. None of these names
/// is taken yet.
fn name_things(
    alloc: Global,
    names: &mut Names,
    kind: Kind,
    letter: &str,
    count: u16,
) -> Result<(), AllocError>
    requires { (i : ℕ) → i < count → meaning (spelled letter.now i) names.old ≡ None }
    ensures { OnOk result (names.new ≡ with_spelled kind letter.now count names.old) }
{
    for i in 0..count {
        names.add(alloc, kind, spell(alloc, letter, i)?.as_str())?;
    }
    Ok(())
}

/// Names the DPC objects, the timers and the threads.
fn name_objects(alloc: Global, names: &mut Names) -> Result<(), AllocError>
    requires { names.old ≡ no_names }
    ensures { OnOk result (names.new ≡ object_names) }
{
    name_things(alloc, names, Kind::Dpc, "d", 32)?;
    name_things(alloc, names, Kind::Timer, "k", 8)?;
    name_things(alloc, names, Kind::Thread, "t", 32)?;
    Ok(())
}

/// Names the APC objects, kind by kind, behind the objects.
fn name_apcs(alloc: Global, names: &mut Names) -> Result<(), AllocError>
    requires { names.old ≡ object_names }
    ensures { OnOk result (names.new ≡ thing_names) }
{
    name_things(alloc, names, Kind::Apc, "s", 32)?;
    name_things(alloc, names, Kind::Apc, "n", 32)?;
    name_things(alloc, names, Kind::Apc, "u", 32)?;
    Ok(())
}

/// Names the routines, behind all things.
fn name_routines(alloc: Global, names: &mut Names) -> Result<(), AllocError>
    requires { names.old ≡ thing_names }
    ensures { OnOk result (names.new ≡ load_names) }
{
    names.add(alloc, Kind::Routine, "idle")?;
    name_things(alloc, names, Kind::Routine, "b", 32)?;
    Ok(())
}

/// Names all things, where nothing has a name yet.
fn name_all(alloc: Global, names: &mut Names) -> Result<(), AllocError>
    requires { names.old ≡ no_names }
    ensures { OnOk result (names.new ≡ load_names) }
{
    name_objects(alloc, names)?;
    name_apcs(alloc, names)?;
    name_routines(alloc, names)?;
    Ok(())
}

/// The names.
pub(crate) fn load_names(alloc: Global) -> Result<Names, AllocError>
    ensures { IfOk result (λ names. names ≡ load_names) }
{
    let mut names = Names::new(alloc);
    name_all(alloc, &mut names)?;
    Ok(names)
}
