//! Which threads a script lets die, and when.

ghost use Rattle.std.specs.Prelude.{◌≡◌};
ghost use Rattle.script.specs.Deaths.{death_by, death_of};

use crate::command::{Action, Command};
use lockword::Tid;

/// The access before which the action lets this thread die, if it does.
fn death_by(action: Action, thread: Tid) -> Option<u32>
    ensures { result ≡ death_by thread action }
{
    let Action::Die {
        thread: dying,
        access,
    } = action
    else {
        return None;
    };
    if dying == thread { Some(access) } else { None }
}

/// The access before which the first of these commands lets this thread die that does so; None where none does.
pub fn death_of(commands: &[Command], thread: Tid) -> Option<u32>
    ensures { result ≡ death_of thread commands.now }
{
    for command in commands {
        if let Some(access) = death_by(command.action, thread) {
            return Some(access);
        }
    }
    None
}
