//! The target of a request: its route, and what its parts name.
ghost use Rattle.std.specs.Prelude.{◌≡◌, IfOk, Result, Ok, Some, None, MatchOption, codes};
ghost use Rattle.std.specs.Char.{is_ascii};
ghost use Rattle.std.specs.Str.{IsAscii};
ghost use Rattle.std.specs.List.{list_all};
ghost use Rattle.matchit.specs.Seek.{first};
ghost use Rattle.clr_rules.specs.IdText.{id_of, read_number};
ghost use Rattle.clr_net.specs.NameText.{read_name};
ghost use Rattle.clr_http.specs.Target.{target_of, target_by, order_request, part};
ghost use Rattle.clr_http.specs.Target.{desk_routes, route_in, routes_of, the_routes, view_request};

use clr_net::Name;
use clr_print::read_round;
use clr_rules::{ClearanceId, read_number};
use matchit::{InsertError, Params, Router};
use std::alloc::{AllocError, Global};

/// The routes of the service.
#[derive(Clone, Copy)]
pub(crate) enum Route {
    /// `POST /command`
    Command,
    /// `GET /clearance/{caller}/{requester}/{number}`
    Clearance,
    /// `GET /order/{requester}/{number}/{round}`
    Order,
    /// `GET /board`
    Board,
    /// `GET /network`, of a service at a desk
    Network,
    /// `GET /wayback/{requester}/{number}`, of a service at a desk
    WayBack,
}

/// Whose view of which clearance is asked for.
#[derive(Clone, Copy)]
pub(crate) struct ViewRequest {
    pub caller: Name,
    pub id: ClearanceId,
}

/// Which round of which clearance is to be printed.
#[derive(Clone, Copy)]
pub(crate) struct OrderRequest {
    pub id: ClearanceId,
    pub round: u8,
}

/// What a target asks for. A view, an order or a way back is `None` where a name, a number or the
/// round in the path does not read.
#[derive(Clone, Copy)]
pub(crate) enum Target {
    Command,
    Clearance(Option<ViewRequest>),
    Order(Option<OrderRequest>),
    Board,
    Network,
    WayBack(Option<ClearanceId>),
}

/// A router with the four routes.
fn routes(alloc: Global) -> Result<Router<Route>, InsertError>
    ensures { IfOk result (λ r. r ≡ the_routes) }
{
    let mut router = Router::new(alloc);
    router.insert("/command", Route::Command)?;
    router.insert("/clearance/{caller}/{requester}/{number}", Route::Clearance)?;
    router.insert("/order/{requester}/{number}/{round}", Route::Order)?;
    router.insert("/board", Route::Board)?;
    Ok(router)
}

/// A router with the routes of a service at a desk.
fn desk_routes(alloc: Global) -> Result<Router<Route>, InsertError>
    ensures { IfOk result (λ r. r ≡ desk_routes) }
{
    let mut router = routes(alloc)?;
    router.insert("/network", Route::Network)?;
    router.insert("/wayback/{requester}/{number}", Route::WayBack)?;
    Ok(router)
}

/// The routes of a service, at a desk or not.
fn routes_of(alloc: Global, desk: bool) -> Result<Router<Route>, InsertError>
    ensures { IfOk result (λ r. r ≡ routes_of desk) }
{
    if desk {
        desk_routes(alloc)
    } else {
        routes(alloc)
    }
}

/// Whether each byte of a target is ASCII.
fn is_ascii(target: &str) -> bool
    ensures { result ≡ list_all is_ascii target.now }
{
    target.as_bytes().iter().all(|b| b.is_ascii())
}

/// The clearance of a requester and a number, where both read.
fn id_of(requester: &str, number: &str) -> Option<ClearanceId>
    ensures { result ≡ id_of (read_name requester.now) (read_number number.now) }
{
    let Ok(requester) = Name::read(requester) else {
        return None;
    };
    match read_number(number) {
        Some(number) => ClearanceId::new(requester, number),
        None => None,
    }
}

/// The view that is asked for, where all parts read.
fn view_request(caller: &str, id: Option<ClearanceId>) -> Option<ViewRequest>
    ensures { result ≡ view_request (read_name caller.now) id }
{
    let Ok(caller) = Name::read(caller) else {
        return None;
    };
    match id {
        Some(id) => Some(ViewRequest { caller, id }),
        None => None,
    }
}

/// The order that is asked for, where all parts read.
fn order_request(id: Option<ClearanceId>, round: Option<u8>) -> Option<OrderRequest>
    ensures { result ≡ order_request id round }
{
    let Some(id) = id else {
        return None;
    };
    match round {
        Some(round) => Some(OrderRequest { id, round }),
        None => None,
    }
}

/// The part of the target that the route gives this name, or nothing.
fn part<'v>(target: &str, params: &Params<'_, 'v>, route: Route, key: &str) -> &'v str
    requires path { params.now.path.now ≡ target.now }
    requires text { IsAscii params.now.text.now }
    ensures { result.now ≡ part target.now (route_in params.now.pattern.now
        params.now.text.now params.now.names.now route) key.now }
{
    if !is_ascii(target) {
        return "";
    }
    match params.get(key) {
        Some(part) => part,
        None => "",
    }
}

/// What a target with this route asks for.
fn target_by(target: &str, params: &Params<'_, '_>, route: Route) -> Target
    requires path { params.now.path.now ≡ target.now }
    requires text { IsAscii params.now.text.now }
    ensures { result ≡ target_by target.now (route_in params.now.pattern.now
        params.now.text.now params.now.names.now route) route }
{
    match route {
        Route::Command => Target::Command,
        Route::Clearance => {
            let id = id_of(
                part(target, params, route, "requester"),
                part(target, params, route, "number"),
            );
            Target::Clearance(view_request(part(target, params, route, "caller"), id))
        }
        Route::Order => {
            let id = id_of(
                part(target, params, route, "requester"),
                part(target, params, route, "number"),
            );
            Target::Order(order_request(id, read_round(part(target, params, route, "round"))))
        }
        Route::Board => Target::Board,
        Route::Network => Target::Network,
        Route::WayBack => Target::WayBack(id_of(
            part(target, params, route, "requester"),
            part(target, params, route, "number"),
        )),
    }
}

/// What a target asks for, of a service at a desk or not. `None` where it takes no route.
pub(crate) fn target_of(
    alloc: Global,
    desk: bool,
    target: &str,
) -> Result<Option<Target>, AllocError>
    ensures { IfOk result (λ o. o ≡ target_of desk target.now) }
{
    let Ok(router) = routes_of(alloc, desk) else {
        return Err(AllocError);
    };
    match router.at(target) {
        Ok(found) => Ok(Some(target_by(target, &found.params, *found.value))),
        Err(_) => Ok(None),
    }
}
