//! Flags that tell which of the events that are watched for came.
ghost use Rattle.std.specs.Prelude.{◌≡◌, ◌∷◌, List, length};
ghost use Rattle.nt_event.specs.declared.events.Event.{Event as TheEvent};
ghost use Rattle.nt_shows.specs.Tells.{AreCame};

use nt_event::Event;
use nt_expect::Watched;
use nt_shows::is_watched;

/// The flags tell of the event too.
pub(crate) fn note(came: &mut Vec<bool>, watched: &[Watched], event: &Event)
    requires { length came.old.items ≡ length watched.now }
    ensures { (past : List TheEvent) → AreCame watched.now past came.old.items →
        AreCame watched.now (event.now ∷ past) came.new.items }
{
    for place in 0..watched.len() {
        if is_watched(&watched[place], event, came[place]) {
            came[place] = true;
        }
    }
}
