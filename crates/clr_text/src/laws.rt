//! Laws of the definitions: the contract of each function is the law.
ghost use Rattle.clr_text.specs.CommandLaws.{CommandValuesArePlain, CommandValuesReadBack};
ghost use Rattle.clr_text.specs.CommandLaws.{CommandsAtKeysCanBeSent, CommandsReadBack};
ghost use Rattle.clr_text.specs.CommandLaws.{PlainValuesReadBack};
ghost use Rattle.clr_text.specs.CommandLaws.{ReadCommandsCanBeSent, ValuesAreOneLine};
ghost use Rattle.clr_text.specs.KeyLaws.{KeysStandInOrder, LeastBadValueIsNamed};
ghost use Rattle.clr_text.specs.KeyLaws.{LeastMissingIsNamed};
ghost use Rattle.clr_text.specs.LineLaws.{FaultsAreOfTheLine, LinesAreRuns, SameShownSameBytes};
ghost use Rattle.clr_text.specs.LineLaws.{OthersLinesTakeNothing, OwnLinesAlone};

use clr_rules::laws::headline::{
    nothing_is_taken_away, own_commands_stand_alone, same_shown_same_answers,
};

/// The keys of each command are in the order of their bytes, none of them twice.
pub fn keys_stand_in_order()
    ensures { KeysStandInOrder }
{}

/// Of the keys of a command that an object lacks, the fault names the least.
pub fn least_missing_is_named()
    ensures { LeastMissingIsNamed }
{}

/// Of the keys of a command whose values do not fit, the fault names the least.
pub fn least_bad_value_is_named()
    ensures { LeastBadValueIsNamed }
{}

/// Lines are answered as a run of the commands that they read as; a line that is no command has
/// its fault, whatever the register, and changes nothing.
pub fn lines_are_runs()
    ensures runs { LinesAreRuns }
    ensures faults { FaultsAreOfTheLine }
{}

/// The headline, from bytes to bytes: two lists of lines that show a clearance the same give its
/// own lines the same bytes; a line about another clearance takes nothing away from it; and where
/// others leave no mark, its own lines are answered with the bytes that they give alone.
pub fn headline_holds_of_lines()
    ensures same { SameShownSameBytes }
    ensures nothing { OthersLinesTakeNothing }
    ensures alone { OwnLinesAlone }
{
    same_shown_same_answers();
    nothing_is_taken_away();
    own_commands_stand_alone();
}

/// A command that can be sent is read from the text that is written for it, and from its value.
pub fn commands_read_back()
    ensures texts { CommandsReadBack }
    ensures values { CommandValuesReadBack }
{}

/// Each command that was read can be sent, also one that was read at a key of another value.
pub fn read_commands_can_be_sent()
    ensures lines { ReadCommandsCanBeSent }
    ensures parts { CommandsAtKeysCanBeSent }
{}

/// A value of texts, whole numbers, `true`, `false`, null and objects whose keys are in order is
/// what its text reads as; the value of a command that can be sent is one.
pub fn plain_values_read_back()
    ensures values { PlainValuesReadBack }
    ensures commands { CommandValuesArePlain }
{}

/// The text of a value has no line feed, so it is one line among others.
pub fn values_are_one_line()
    ensures { ValuesAreOneLine }
{}
