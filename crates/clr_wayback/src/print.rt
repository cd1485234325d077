//! The commands of a way back as a text.
ghost use Rattle.std.specs.Prelude.{◌≡◌, ◌++◌, IfOk, IsTrue, OnOk, true, string_bytes};
ghost use Rattle.std.specs.List.{list_all};
ghost use Rattle.clr_text.specs.CommandText.{has_its_moment};
ghost use Rattle.clr_wayback.specs.Text.{command_line, commands_read, reads_back, way_back_text};

use clr_rules::Command;
use clr_text::{can_be_sent, command_text};
use std::alloc::{AllocError, Global};

/// The commands of a way back, each as a line of JSON. Its lines read as these commands, so `run`
/// takes them; a `show` or `jumper`, which is on no way back, only where its moment is 0.
pub fn print_way_back(alloc: Global, commands: &[Command]) -> Result<String, AllocError>
    ensures text { IfOk result (λ text. string_bytes text ≡ way_back_text commands.now) }
    ensures reads { IfOk result (λ text. list_all has_its_moment commands.now ≡ true
        → commands_read (string_bytes text) ≡ commands.now) }
{
    all_read_back(commands);
    let text = lines_of(alloc, commands)?;
    Ok(text)
}

/// Each command on a line.
fn lines_of(alloc: Global, commands: &[Command]) -> Result<String, AllocError>
    ensures { IfOk result (λ text. string_bytes text ≡ way_back_text commands.now) }
{
    let mut text = String::new(alloc);
    for command in commands {
        push_command(alloc, &mut text, command)?;
    }
    Ok(text)
}

/// Writes a command and a line feed.
pub fn push_command(alloc: Global, out: &mut String, command: &Command) -> Result<(), AllocError>
    ensures { OnOk result
        (string_bytes out.new ≡ string_bytes out.old ++ command_line command.now) }
{
    let line = command_text(alloc, command)?;
    out.push_str(line.as_str())?;
    out.push('\n')
}

/// Each command that has its moment is read from its text: a law, with nothing to do.
fn all_read_back(commands: &[Command])
    ensures { IsTrue (list_all reads_back commands.now) }
{
    for command in commands {
        reads_back(command);
    }
}

/// A command that has its moment is read from its text: a law, with nothing to do.
pub fn reads_back(command: &Command)
    ensures { IsTrue (reads_back command.now) }
{
    can_be_sent(command);
}
