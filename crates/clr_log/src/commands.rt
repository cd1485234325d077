//! The commands of a journal alone.
ghost use Rattle.std.specs.Prelude.{◌≡◌, IsTrue, map, true};
ghost use Rattle.std.specs.List.{list_all};
ghost use Rattle.clr_text.specs.CommandText.{has_its_moment};
ghost use Rattle.clr_wayback.specs.Text.{commands_read, reads_back};
ghost use Rattle.clr_log.specs.Commands.{commands_text};

use clr_rules::Command;
use clr_wayback::reads_back;

/// The lines of commands read as these commands, so `run` takes them; a `show` or `jumper` only
/// where its moment is 0, as it is in each journal that was read. A law, with nothing to do.
pub fn commands_read_back(commands: &[&Command])
    ensures { list_all has_its_moment (map (λ one. one.now) commands.now) ≡ true
        → commands_read (commands_text (map (λ one. one.now) commands.now))
        ≡ map (λ one. one.now) commands.now }
{
    all_read_back(commands);
}

/// Each command that has its moment is read from its text: a law, with nothing to do.
fn all_read_back(commands: &[&Command])
    ensures { IsTrue (list_all reads_back (map (λ one. one.now) commands.now)) }
{
    for command in commands {
        reads_back(command);
    }
}
