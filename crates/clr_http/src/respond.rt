//! What a request asks for, put to the register, and the response to it.
ghost use Rattle.std.specs.Prelude.{◌≡◌, ℕ, IfOk, IsErr, List, Option, Some};
ghost use Rattle.clr_rules.specs.Good.{IsGood};
ghost use Rattle.clr_rules.specs.declared.reply.Reply.{Reply};
ghost use Rattle.clr_http.specs.Puts.{IsPutOnce, PutsSpoken};
ghost use Rattle.clr_http.specs.Registrar.{AccountsFor, IsTurned};
ghost use Rattle.clr_http.specs.Respond.{checked_outcome, command_outcome, order_outcome};
ghost use Rattle.clr_http.specs.Respond.{reply_status, show_of, spoken_outcome, target_asks};
ghost use Rattle.clr_http.specs.Respond.{unchanged, way_back_content, way_back_outcome};
ghost use Rattle.clr_http.specs.Response.{content_of, fault_response};
ghost use Rattle.clr_http.specs.declared.target.Target.TheVariants.{Clearance};
ghost use Rattle.clr_http.specs.declared.target.Target.TheVariants as asked_for;

use crate::callers::Speaker;
use crate::registrar::Registrar;
use crate::response::{Fault, Response};
use crate::target::{OrderRequest, Target, ViewRequest};
use clr_rules::{ClearanceId, Command, Kind, Moment, Reply, Text};
use clr_text::{TextFault, command_of, fault_text, reply_text};
use clr_wayback::{WayBack, print_way_back};
use http::StatusCode;
use std::alloc::{AllocError, Global};

/// Answers what is asked for, with the body of a command. A command or a view in a name that the
/// speaker may not use does not come to the desk.
pub(crate) fn response_to<D: Registrar>(
    alloc: Global,
    desk: &mut D,
    speaker: &Speaker<'_>,
    asked: Target,
    body: &[u8],
) -> Result<Response, AllocError>
    ensures turn { let s = speaker.now in IsGood (D.keeper desk.old).register → IsTurned
        (checked_outcome s.logins.now s.login (D.keeper desk.old).register asked body.now)
        (D.keeper desk.old) (D.keeper desk.new) result }
    ensures accounts { AccountsFor (D.keeper desk.old) (D.keeper desk.new) result }
    ensures put { PutsSpoken D.takes speaker.now (target_asks asked body.now)
        (IsErr result) desk.old desk.new }
    ensures led { D.leads_to desk.old desk.new }
{
    match asked {
        Target::Command => body_response(alloc, desk, speaker, body),
        Target::Clearance(viewing) => view_response(alloc, desk, speaker, viewing),
        Target::Order(printing) => order_response(alloc, desk, printing),
        Target::Board => {
            let text = desk.board(alloc)?;
            Ok(Response::Printed(text))
        }
        Target::Network => {
            let text = desk.network(alloc)?;
            Ok(Response::Json(StatusCode::OK, text))
        }
        Target::WayBack(id) => way_back_response(alloc, desk, id),
    }
}

/// Answers the command of a body, or reports the fault of its text.
fn body_response<D: Registrar>(
    alloc: Global,
    desk: &mut D,
    speaker: &Speaker<'_>,
    body: &[u8],
) -> Result<Response, AllocError>
    ensures turn { let s = speaker.now in IsGood (D.keeper desk.old).register → IsTurned
        (checked_outcome s.logins.now s.login (D.keeper desk.old).register asked_for.Command
        body.now) (D.keeper desk.old) (D.keeper desk.new) result }
    ensures accounts { AccountsFor (D.keeper desk.old) (D.keeper desk.new) result }
    ensures put { PutsSpoken D.takes speaker.now
        (target_asks asked_for.Command body.now) (IsErr result) desk.old desk.new }
    ensures led { D.leads_to desk.old desk.new }
{
    match command_of(alloc, body) {
        Ok(command) => spoken_response(alloc, desk, speaker, command),
        Err(TextFault::NoMemory) => Err(AllocError),
        Err(fault) => {
            let text = fault_text(alloc, &fault)?;
            Ok(Response::Json(StatusCode::BAD_REQUEST, text))
        }
    }
}

/// Shows a clearance to its caller, where the path names both.
fn view_response<D: Registrar>(
    alloc: Global,
    desk: &mut D,
    speaker: &Speaker<'_>,
    viewing: Option<ViewRequest>,
) -> Result<Response, AllocError>
    ensures turn { let s = speaker.now in (body : List ℕ) → IsGood (D.keeper desk.old).register
        → IsTurned
        (checked_outcome s.logins.now s.login (D.keeper desk.old).register (Clearance viewing) body)
        (D.keeper desk.old) (D.keeper desk.new) result }
    ensures accounts { AccountsFor (D.keeper desk.old) (D.keeper desk.new) result }
    ensures put { (body : List ℕ) → PutsSpoken D.takes speaker.now
        (target_asks (Clearance viewing) body) (IsErr result) desk.old desk.new }
    ensures led { D.leads_to desk.old desk.new }
{
    match viewing {
        Some(viewing) => spoken_response(alloc, desk, speaker, show_of(viewing)),
        None => Response::of_fault(alloc, Fault::NoSuch),
    }
}

/// Puts a command to the register, where the speaker may use its name.
fn spoken_response<D: Registrar>(
    alloc: Global,
    desk: &mut D,
    speaker: &Speaker<'_>,
    command: Command,
) -> Result<Response, AllocError>
    ensures turn { let s = speaker.now in IsGood (D.keeper desk.old).register → IsTurned
        (spoken_outcome s.logins.now s.login (D.keeper desk.old).register command)
        (D.keeper desk.old) (D.keeper desk.new) result }
    ensures accounts { AccountsFor (D.keeper desk.old) (D.keeper desk.new) result }
    ensures put { PutsSpoken D.takes speaker.now (Some command) (IsErr result)
        desk.old desk.new }
    ensures led { D.leads_to desk.old desk.new }
{
    if !speaker.may_ask(&command) {
        return Response::of_fault(alloc, Fault::NotCaller);
    }
    let login = speaker.noted_login(alloc)?;
    command_response(alloc, desk, login, command)
}

/// The command `show` of a view.
fn show_of(viewing: ViewRequest) -> Command
    ensures { result ≡ show_of viewing }
{
    Command {
        caller: viewing.caller,
        moment: Moment::new(0).unwrap(),
        kind: Kind::Show {
            clearance: viewing.id,
        },
    }
}

/// Prints an order, where the path names one that is there.
fn order_response<D: Registrar>(
    alloc: Global,
    desk: &mut D,
    printing: Option<OrderRequest>,
) -> Result<Response, AllocError>
    ensures turn { IsGood (D.keeper desk.old).register
        → IsTurned (order_outcome (D.keeper desk.old).register printing)
        (D.keeper desk.old) (D.keeper desk.new) result }
    ensures accounts { AccountsFor (D.keeper desk.old) (D.keeper desk.new) result }
    ensures put { desk.new ≡ desk.old }
    ensures led { D.leads_to desk.old desk.new }
{
    let Some(printing) = printing else {
        return Response::of_fault(alloc, Fault::NoSuch);
    };
    match desk.order(alloc, &printing.id, printing.round)? {
        Some(text) => Ok(Response::Printed(text)),
        None => Response::of_fault(alloc, Fault::NoSuch),
    }
}

/// Prints the way back of a clearance, where the path names one that is there.
fn way_back_response<D: Registrar>(
    alloc: Global,
    desk: &mut D,
    id: Option<ClearanceId>,
) -> Result<Response, AllocError>
    ensures turn { IsGood (D.keeper desk.old).register
        → IsTurned (way_back_outcome (D.keeper desk.old).register id)
        (D.keeper desk.old) (D.keeper desk.new) result }
    ensures accounts { AccountsFor (D.keeper desk.old) (D.keeper desk.new) result }
    ensures put { desk.new ≡ desk.old }
    ensures led { D.leads_to desk.old desk.new }
{
    let Some(id) = id else {
        return Response::of_fault(alloc, Fault::NoSuch);
    };
    let answer = desk.way_back(alloc, &id)?;
    way_back_printed(alloc, &answer)
}

/// A way back as it is printed, or why there is none.
fn way_back_printed(alloc: Global, answer: &WayBack) -> Result<Response, AllocError>
    ensures { IfOk result (λ response. content_of response ≡ way_back_content answer.now) }
{
    match answer {
        WayBack::Commands(commands) => {
            let text = print_way_back(alloc, commands.as_slice())?;
            Ok(Response::Printed(text))
        }
        WayBack::NoSuch => Response::of_fault(alloc, Fault::NoSuch),
        WayBack::NoWay => Response::of_fault(alloc, Fault::NoWay),
    }
}

/// Puts a command to the register, at a login or at none.
fn command_response<D: Registrar>(
    alloc: Global,
    desk: &mut D,
    login: Option<Text>,
    command: Command,
) -> Result<Response, AllocError>
    ensures turn { IsGood (D.keeper desk.old).register
        → IsTurned (command_outcome (D.keeper desk.old).register command)
        (D.keeper desk.old) (D.keeper desk.new) result }
    ensures accounts { AccountsFor (D.keeper desk.old) (D.keeper desk.new) result }
    ensures put { IsPutOnce D.takes desk.old login command desk.new }
    ensures led { D.leads_to desk.old desk.new }
{
    let Some(reply) = desk.answer(login, command) else {
        return Ok(Response::Unavailable);
    };
    let text = reply_text(alloc, &reply)?;
    Ok(Response::Json(reply_status(&reply), text))
}

/// The status of a reply: 409 of a refusal.
fn reply_status(reply: &Reply) -> StatusCode
    ensures { result ≡ reply_status reply.now }
{
    match reply {
        Reply::Accepted(_) | Reply::Shown(_) | Reply::Added(_) => StatusCode::OK,
        Reply::Refused(_) => StatusCode::CONFLICT,
    }
}
