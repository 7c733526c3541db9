//! What is expected of one command.
ghost use Rattle.std.specs.List.{AllPass};
ghost use Rattle.std.specs.Prelude.{◌≡◌, ◌≤◌, IsTrue, length};
ghost use Rattle.nt_event.specs.Script.{fits};
ghost use Rattle.nt_verify.specs.Sites.{first_frame};
ghost use Rattle.nt_verify.specs.Steps.{has_lock_below};
ghost use Rattle.nt_verify.specs.Walks.{expected_at, walked};

use crate::Site;
use crate::walk::Walk;
use nt_event::{Command, Level, Refusal, Script};

/// That a command will be refused.
#[derive(Clone, Copy, PartialEq, Eq, Debug)]
pub struct Expected {
    pub refusal: Refusal,
    /// The level of its frame just before it.
    pub level: Level,
}

/// The refusal that is expected of the command at this place of the site's routine, and the level
/// of its frame then: where the commands before it are called in one frame of the site, those that
/// aren't refused are done, and an acquire gets its lock. None where it isn't refused, and where
/// the routine has no command at this place.
///
/// It takes no memory, and time linear in the place.
pub fn expect(script: &Script, site: Site, place: u32) -> Option<Expected>
    requires { IsTrue (fits script.now) }
    ensures { result ≡ expected_at script.now site place }
{
    let Some(command) = site.command_at(script, place) else {
        return None;
    };
    let commands = site.commands(script);
    let walk = walk_through(script, &site, &commands[..place as usize]);
    match walk.refusal(&command) {
        Some(refusal) => Some(Expected {
            refusal,
            level: walk.level(),
        }),
        None => None,
    }
}

/// A frame of the site once it has called these commands.
fn walk_through(script: &Script, site: &Site, commands: &[Command]) -> Walk
    requires few { length commands.now ≤ 8192 }
    requires locks { AllPass (has_lock_below 64) commands.now }
    ensures { result ≡ walked (first_frame script.now site.now) commands.now }
{
    let mut walk = Walk::begin(script, site);
    for command in commands {
        walk.call(command);
    }
    walk
}
