//! Laws of the definitions: the headline between two servers, and what the yes of `verify` says.
ghost use Rattle.clr_commands.specs.ConnectionLaws.{RunsGetTheSame};
ghost use Rattle.clr_commands.specs.Verify.{YesIsLevel};

use clr_rules::laws::run_headline::headline_holds_of_runs;

/// Connections of two ports, or requests in memory, that show a clearance the same get its own
/// requests the same bytes: a law, with nothing to do.
pub fn runs_get_the_same()
    ensures { RunsGetTheSame }
{
    headline_holds_of_runs();
}

/// What `verify` says yes of is level with the journal: a law, with nothing to do.
pub fn yes_is_level()
    ensures { YesIsLevel }
{}
