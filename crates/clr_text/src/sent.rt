//! Commands that can be sent.
ghost use Rattle.std.specs.Prelude.{IsTrue};
ghost use Rattle.clr_text.specs.CommandText.{can_be_sent, has_its_moment};

use crate::kinds::own_taken;
use crate::values::KeyValue;
use clr_rules::Command;

/// Each command can be sent, but for a `show` or `jumper` whose moment is not 0: a law, with
/// nothing to do.
pub fn can_be_sent(command: &Command)
    ensures { IsTrue (has_its_moment command.now) → IsTrue (can_be_sent command.now) }
{
    command.moment.taken();
    command.caller.taken();
    own_taken(&command.kind);
}
