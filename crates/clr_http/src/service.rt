//! The service over requests that lie in memory.
ghost use Rattle.std.specs.Prelude.{◌≡◌, ◌<◌, ◌-◌, ◌^◌, IfOk, Option, length, map};
ghost use Rattle.clr_rules.specs.Good.{IsGood};
ghost use Rattle.clr_rules.specs.Run.{IsReached};
ghost use Rattle.clr_rules.specs.declared.command.Command.{Command};
ghost use Rattle.clr_http.specs.CallerLaws.{AskedInOwnName, ForeignIsRefused};
ghost use Rattle.clr_http.specs.CallerLaws.{PlainChecksNoCaller};
ghost use Rattle.clr_http.specs.Posted.{PostedBodiesAsk};
ghost use Rattle.clr_http.specs.RequestLaws.{AnswersAreServed, AskedOnce, ComesWithin};
ghost use Rattle.clr_http.specs.RequestLaws.{CommandsAreAnswered, HasRun};
ghost use Rattle.clr_http.specs.RequestLaws.{OnlyCommandsChange, OthersRequestsTakeNothing};
ghost use Rattle.clr_http.specs.RequestLaws.{OwnRequestsAlone, RequestsAreRuns};
ghost use Rattle.clr_http.specs.RequestLaws.{SameShownSameResponses, ServedAreAnswers};
ghost use Rattle.clr_http.specs.Service.{AnsweredOnce, HaveHeads, IsExchange, RespondsAll};

use crate::registrar::Registrar;
use crate::serve::{HttpFault, serve_one};
use clr_rules::laws::headline::{
    nothing_is_taken_away, own_commands_stand_alone, same_shown_same_answers,
};
use clr_rules::laws::run_headline::headline_holds_of_runs;
use clr_stream::Counted;
use std::alloc::Global;

/// An input has one response, and leaves one register: a law, with nothing to do.
pub fn inputs_are_answered_once()
    ensures { AnsweredOnce }
{}

/// A body that is posted to `/command` asks the command that it reads as: a law, so that what is
/// said of requests that ask commands is said of some.
pub fn posted_bodies_ask()
    ensures { PostedBodiesAsk }
{}

/// A service with logins is asked nothing, no command and no view, in a name that the login of the
/// request may not use. At a desk a request that a page of elsewhere may have sent is refused. The
/// plain service looks at no caller.
pub fn requests_speak_for_themselves()
    ensures own { AskedInOwnName }
    ensures foreign { ForeignIsRefused }
    ensures plain { PlainChecksNoCaller }
{}

/// Requests are served as a run of the commands of them that are carried out: all that they ask,
/// where no fault is counted. Each asks one command or none, whatever the register; one that asks
/// none changes nothing.
pub fn requests_are_runs()
    ensures runs { RequestsAreRuns }
    ensures answers { AnswersAreServed }
    ensures served { ServedAreAnswers }
    ensures once { AskedOnce }
    ensures commands { CommandsAreAnswered }
    ensures others { OnlyCommandsChange }
{}

/// The headline over HTTP: two lists of requests that show a clearance the same get its own
/// requests the same bytes; a request about another clearance takes nothing away from it; and
/// where others leave no mark, its own requests get the bytes that they get alone.
pub fn headline_holds_of_requests()
    ensures same { SameShownSameResponses }
    ensures nothing { OthersRequestsTakeNothing }
    ensures alone { OwnRequestsAlone }
{
    same_shown_same_answers();
    nothing_is_taken_away();
    own_commands_stand_alone();
}

/// Serves requests that lie in memory, each as a connection of its own, one after the other. Gives
/// the bytes that go out to each, which are a run of the commands that were carried out. Where the
/// desk counts no fault they are what the definitions answer, from its register on, and it keeps
/// the register that they leave.
pub fn serve_all<D: Registrar>(
    alloc: Global,
    desk: &mut D,
    requests: &[Vec<u8>],
) -> Result<Vec<Vec<u8>>, HttpFault>
    ensures whole { IsGood (D.keeper desk.old).register
        → HaveHeads (map (λ request. request.items) requests.now)
        → (D.keeper desk.old).faults < 2 ^ 64 - 1
        → (D.keeper desk.new).faults ≡ (D.keeper desk.old).faults
        → IfOk result (λ responses. RespondsAll (D.keeper desk.old).register
        (map (λ request. request.items) requests.now)
        (map (λ response. response.items) responses.items) (D.keeper desk.new).register) }
    ensures run { IsGood (D.keeper desk.old).register
        → IfOk result (λ responses. HasRun (D.keeper desk.old)
        (map (λ request. request.items) requests.now)
        (map (λ response. response.items) responses.items) (D.keeper desk.new)) }
    ensures follows { IsGood (D.keeper desk.old).register
        → ComesWithin (length requests.now) (D.keeper desk.old).register
        (D.keeper desk.new).register }
    ensures reached { IsReached (D.keeper desk.old).register
        → IsReached (D.keeper desk.new).register }
    ensures led { D.leads_to desk.old desk.new }
{
    headline_holds_of_runs();
    let mut responses = Vec::new(alloc);
    for request in requests {
        let response = response_bytes(alloc, desk, request.as_slice())?;
        responses.push(response)?;
    }
    Ok(responses)
}

/// The bytes that go out to one request.
fn response_bytes<D: Registrar>(
    alloc: Global,
    desk: &mut D,
    request: &[u8],
) -> Result<Vec<u8>, HttpFault>
    ensures exchange { IsGood (D.keeper desk.old).register
        → IfOk result (λ response. (carried : Option Command)
        × IsExchange (D.keeper desk.old) (D.keeper desk.new) request.now carried response.items) }
    ensures follows { IsGood (D.keeper desk.old).register
        → ComesWithin 1 (D.keeper desk.old).register (D.keeper desk.new).register }
    ensures good { IsGood (D.keeper desk.old).register → IsGood (D.keeper desk.new).register }
    ensures reached { IsReached (D.keeper desk.old).register
        → IsReached (D.keeper desk.new).register }
    ensures led { D.leads_to desk.old desk.new }
{
    let mut reader = Counted::new(request);
    let mut writer = Counted::new(Vec::new(alloc));
    serve_one(alloc, desk, &mut reader, &mut writer)?;
    Ok(writer.into_inner())
}
