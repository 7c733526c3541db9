//! All places where a refusal is expected.
ghost use Rattle.std.specs.List.{cons_option, flat_map};
ghost use Rattle.std.specs.Prelude.{◌≡◌, ◌++◌, [], IfOk, IsTrue, OnOk};
ghost use Rattle.nt_event.specs.Script.{fits};
ghost use Rattle.nt_verify.specs.Findings.{findings, findings_at};
ghost use Rattle.nt_verify.specs.Steps.{found_in};

use crate::walk::Walk;
use crate::{Site, sites};
use nt_event::{Command, Level, Refusal, Script};
use std::alloc::{AllocError, Global};

/// A command that will be refused.
#[derive(Clone, Copy, PartialEq, Eq, Debug)]
pub struct Finding {
    pub site: Site,
    /// Its place in the site's routine, from 0.
    pub place: u32,
    pub refusal: Refusal,
    /// The level of its frame just before it.
    pub level: Level,
}

/// The places where [`crate::expect`] expects a refusal, in the order of [`crate::sites`] and then
/// by place. Each site is walked once, so its time is linear in the commands of all sites.
///
/// Where no memory is found, it returns the error.
pub fn verify(alloc: Global, script: &Script) -> Result<Vec<Finding>, AllocError>
    requires { IsTrue (fits script.now) }
    ensures { IfOk result (λ found. found.items ≡ findings script.now) }
{
    let sites = sites(alloc, script)?;
    let mut found = Vec::new(alloc);
    add_all(&mut found, script, sites.as_slice())?;
    Ok(found)
}

/// Adds those of these sites.
fn add_all(found: &mut Vec<Finding>, script: &Script, sites: &[Site]) -> Result<(), AllocError>
    requires { IsTrue (fits script.now) }
    ensures { OnOk result (found.new.items ≡ found.old.items
        ++ flat_map (findings_at script.now) sites.now) }
{
    for site in sites {
        add_findings(found, script, site)?;
    }
    Ok(())
}

/// Adds those of one site.
fn add_findings(found: &mut Vec<Finding>, script: &Script, site: &Site) -> Result<(), AllocError>
    requires { IsTrue (fits script.now) }
    ensures { OnOk result (found.new.items ≡ found.old.items ++ findings_at script.now site.now) }
{
    let mut walk = Walk::begin(script, site);
    let commands = site.commands(script);
    for command in commands {
        add_if_refused(found, site, &walk, command)?;
        walk.call(command);
    }
    Ok(())
}

/// Adds the command that the walk calls next, where it is refused.
fn add_if_refused(
    found: &mut Vec<Finding>,
    site: &Site,
    walk: &Walk,
    command: &Command,
) -> Result<(), AllocError>
    ensures { OnOk result (found.new.items ≡ found.old.items
        ++ cons_option (found_in site.now walk.now command.now) []) }
{
    let Some(refusal) = walk.refusal(command) else {
        return Ok(());
    };
    found.push(Finding {
        site: *site,
        place: walk.place(),
        refusal,
        level: walk.level(),
    })?;
    Ok(())
}
