//! What a look may find: of each class nothing, or one of some values.
ghost use Rattle.std.specs.Prelude.{◌≡◌, ◌++◌, ◌<◌, IfOk, List, OnOk, map};
ghost use Rattle.std.specs.List.{flat_map};
ghost use Rattle.nt_event.specs.declared.events.Event.{Event};
ghost use Rattle.nt_event.specs.declared.scripts.Script.{Script};
ghost use Rattle.nt_shade_asks.specs.Follows.{IsAsked, IsOf};
ghost use Rattle.nt_ahead.specs.Choices.{with_value, with_values};
ghost use Rattle.nt_ahead.specs.Finds.{HasAllFinds};

use nt_event::{CpuNo, Rises};
use nt_shade_asks::Unnoticed;
use std::alloc::{AllocError, Global};

/// Adds what a look found with each of these values of the class.
fn add_values(
    looks: &mut Vec<Rises>,
    found: &Rises,
    class: u8,
    values: &[u64],
) -> Result<(), AllocError>
    requires { class < 16 }
    ensures { OnOk result (looks.new.items
        ≡ looks.old.items ++ map (with_value class found.now) values.now) }
{
    for value in values {
        let mut rises = *found;
        rises.value[usize::from(class)] = *value;
        looks.push(rises)?;
    }
    Ok(())
}

/// What each of these looks found, as it is and with each of the values of the class.
fn choose_class(
    alloc: Global,
    looks: &[Rises],
    class: u8,
    values: &[u64],
) -> Result<Vec<Rises>, AllocError>
    requires { class < 16 }
    ensures { IfOk result (λ more.
        more.items ≡ flat_map (with_values class values.now) looks.now) }
{
    let mut more = Vec::new(alloc);
    for found in looks {
        more.push(*found)?;
        add_values(&mut more, found, class, values)?;
    }
    Ok(more)
}

/// What the looks of a processor may find: each choice, for each class, of nothing or one of the
/// values that it was asked by and has not noticed.
pub(crate) fn finds_ahead(
    alloc: Global,
    asks: &Unnoticed,
    cpu: CpuNo,
) -> Result<Vec<Rises>, AllocError>
    ensures { IfOk result (λ finds. (s : Script) → (past : List Event) →
        IsOf s asks.now → IsAsked s past asks.now → cpu.0 < s.cpus →
        HasAllFinds s past cpu finds.items) }
{
    let mut finds = Vec::new(alloc);
    finds.push(Rises { value: [0; 16] })?;
    for class in 0..16u8 {
        finds = choose_class(alloc, finds.as_slice(), class, asks.ahead(cpu, class))?;
    }
    Ok(finds)
}
