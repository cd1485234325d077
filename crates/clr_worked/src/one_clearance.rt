//! One clearance in two registers, over HTTP.
ghost use Rattle.clr_worked.specs.OneClearance.{AllCanBePosted, BothAreAnswered};
ghost use Rattle.clr_worked.specs.OneClearance.{TheFirstAreKnown};
ghost use Rattle.clr_worked.specs.OneClearance.{TheListsShowTheSame, TheResponsesAreTheSame};

use clr_http::{headline_holds_of_requests, requests_are_runs};

/// The 49 commands of one clearance as requests, alone in one register and beside the requests of
/// others in another: the same 49 responses.
pub fn one_clearance_over_http()
    ensures posted { AllCanBePosted }
    ensures shown { TheListsShowTheSame }
    ensures same { TheResponsesAreTheSame }
    ensures answered { BothAreAnswered }
    ensures first { TheFirstAreKnown }
{
    requests_are_runs();
    headline_holds_of_requests();
}
