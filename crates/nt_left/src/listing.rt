//! Things that are put one after another.
ghost use Rattle.std.specs.Prelude.{◌≡◌, ◌++◌, OnOk};
ghost use Rattle.nt_left.specs.Lists.{as_list};

use crate::kinds::Left;
use std::alloc::AllocError;

/// Adds the item, where there is one.
pub(crate) fn put(out: &mut Vec<Left>, item: Option<Left>) -> Result<(), AllocError>
    ensures { OnOk result (out.new.items ≡ out.old.items ++ as_list item) }
{
    if let Some(item) = item {
        out.push(item)?;
    }
    Ok(())
}
