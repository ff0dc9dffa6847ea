//! The routes.
ghost use Rattle.std.specs.Prelude.{◌≡◌, IfOk, OnOk};
ghost use Rattle.http_defs.specs.Routes.{kind_at, routes, with_route};
ghost use Rattle.http_defs.specs.Targets.{query_of};

use crate::NoMemory;
use crate::asking::query_of_target;
use http_defs::{Query, Request, RouteKind};
use matchit::Router;
use std::alloc::Global;
use std::marker::Model;

/// The routes, made once.
#[derive(Drop)]
pub struct Routes {
    router: Router<RouteKind>,
}

impl Model for Routes {
    ghost use Rattle.std.specs.Prelude.{◌≡◌};
    ghost use Rattle.http_defs.specs.Routes.{routes};

    ghost Value = { Unit {0} };

    ghost view = { λ _. tt };

    ghost invariant = { λ kept. kept.router ≡ routes };
}

impl Routes {
    /// The routes, or want of memory.
    pub fn new(alloc: Global) -> Result<Routes, NoMemory> {
        Ok(Routes {
            router: all_routes(alloc)?,
        })
    }

    /// What a request asks, or the status that refuses it.
    #[tactic(auto, unfolding(http_defs::specs::Targets::query_of))]
    pub fn query(&self, alloc: Global, request: &Request) -> Result<Query, NoMemory>
        ensures answers_what_is_asked { IfOk result (λ query. query ≡ query_of request.now) }
    {
        if request.method.as_str() != "GET" {
            return Ok(Query::Refused(405));
        }
        if request.body {
            return Ok(Query::Refused(400));
        }
        query_of_target(alloc, &self.router, request.target.as_slice())
    }
}

fn all_routes(alloc: Global) -> Result<Router<RouteKind>, NoMemory>
    ensures { IfOk result (λ router. router ≡ routes) }
{
    let mut router = Router::new(alloc);
    add(&mut router, "/board/{schedule}/{stop}", RouteKind::Board)?;
    add(&mut router, "/alerts/{schedule}/{stop}", RouteKind::Alerts)?;
    add(&mut router, "/feed/{schedule}", RouteKind::Feed)?;
    add(&mut router, "/unmatched/{schedule}", RouteKind::Unmatched)?;
    add(&mut router, "/status", RouteKind::Status)?;
    Ok(router)
}

/// Adds a route. The routes above are well formed and don't conflict, so that memory alone can be
/// wanting.
fn add(router: &mut Router<RouteKind>, route: &str, kind: RouteKind) -> Result<(), NoMemory>
    ensures { OnOk result (router.new ≡ with_route route.now kind router.old) }
{
    let Ok(()) = router.insert(route, kind) else {
        return Err(NoMemory);
    };
    Ok(())
}

/// The route of a path.
pub(crate) fn kind_of(router: &Router<RouteKind>, path: &str) -> Option<RouteKind>
    ensures { result ≡ kind_at router.now path.now }
{
    match router.at(path) {
        Ok(found) => Some(*found.value),
        Err(_) => None,
    }
}
