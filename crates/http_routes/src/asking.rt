//! The query of a target.
ghost use Rattle.std.specs.Prelude.{◌≡◌, ℕ, Bool, List, Option, not, if◌then◌else◌, IfOk};
ghost use Rattle.std.specs.Option.{option_map};
ghost use Rattle.http_defs.specs.Targets.{begins_with_slash, feed_query, form_in, or_bad, path_in, query_at, query_by, stop_query, text_at};
ghost use Rattle.http_defs.specs.Routes.{routes};
ghost use Rattle.http_defs.specs.declared.asked.Query.{Query};
ghost use Rattle.http_routes.specs.Asking.{asked_by};

use crate::NoMemory;
use crate::cutting::{begins_with_slash, form_in, path_in};
use crate::forms::{choices_in, since_in};
use crate::router::kind_of;
use crate::segments::text_at;
use http_defs::{Choices, Query, RouteKind};
use matchit::Router;
use rt_types::Text;
use std::alloc::Global;
use std::str;

/// The places of a path's parameters.
const SCHEDULE: usize = 2;

const STOP: usize = 3;

/// What a board and alerts are asked for.
#[derive(Drop)]
pub(crate) struct StopAsked {
    schedule: Text,
    stop: Text,
    choices: Choices,
}

/// The query of a target of a GET.
pub(crate) fn query_of_target(
    alloc: Global,
    router: &Router<RouteKind>,
    target: &[u8],
) -> Result<Query, NoMemory>
    requires { router.now ≡ routes }
    ensures { IfOk result (λ query. query ≡ (if not (begins_with_slash target.now)
        then Query.Refused 400 else query_at (path_in target.now) (form_in target.now))) }
{
    if !begins_with_slash(target) {
        return Ok(Query::Refused(400));
    }
    query_at(alloc, router, path_in(target), form_in(target))
}

#[tactic(auto, unfolding(http_defs::specs::Targets::query_at))]
fn query_at(
    alloc: Global,
    router: &Router<RouteKind>,
    path: &[u8],
    form: &[u8],
) -> Result<Query, NoMemory>
    requires { router.now ≡ routes }
    ensures { IfOk result (λ query. query ≡ query_at path.now form.now) }
{
    match str::from_utf8(path) {
        Ok(path) => query_by(alloc, kind_of(router, path), path, form),
        Err(_) => Ok(Query::Refused(404)),
    }
}

/// The query of a path and a form by the path's route.
fn query_by(
    alloc: Global,
    kind: Option<RouteKind>,
    path: &str,
    form: &[u8],
) -> Result<Query, NoMemory>
    ensures { IfOk result (λ query. query ≡ query_by kind path.now form.now) }
{
    match kind {
        Some(RouteKind::Board) => board_at(alloc, path, form),
        Some(RouteKind::Alerts) => alerts_at(alloc, path, form),
        Some(RouteKind::Feed) => feed_at(alloc, path, form),
        Some(RouteKind::Unmatched) => unmatched_at(alloc, path),
        Some(RouteKind::Status) => Ok(Query::Status),
        None => Ok(Query::Refused(404)),
    }
}

fn board_at(alloc: Global, path: &str, form: &[u8]) -> Result<Query, NoMemory>
    ensures { IfOk result (λ query. query ≡ or_bad (stop_query Query.Board path.now form.now)) }
{
    match stop_asked(alloc, path, form)? {
        Some(asked) => {
            let StopAsked {
                schedule,
                stop,
                choices,
            } = asked;
            Ok(Query::Board {
                schedule,
                stop,
                span: choices.span,
                limit: choices.limit,
                json: choices.json,
            })
        }
        None => Ok(Query::Refused(400)),
    }
}

fn alerts_at(alloc: Global, path: &str, form: &[u8]) -> Result<Query, NoMemory>
    ensures { IfOk result (λ query. query ≡ or_bad (stop_query Query.Alerts path.now form.now)) }
{
    match stop_asked(alloc, path, form)? {
        Some(asked) => {
            let StopAsked {
                schedule,
                stop,
                choices,
            } = asked;
            Ok(Query::Alerts {
                schedule,
                stop,
                span: choices.span,
                limit: choices.limit,
                json: choices.json,
            })
        }
        None => Ok(Query::Refused(400)),
    }
}

/// What a path and a form ask of a stop.
fn stop_asked(alloc: Global, path: &str, form: &[u8]) -> Result<Option<StopAsked>, NoMemory>
    ensures { IfOk result (λ asked. (query : List ℕ → List ℕ → ℕ → ℕ → Bool → Query)
        → stop_query query path.now form.now ≡ option_map (asked_by query) asked) }
{
    let Some(schedule) = text_at(alloc, path, SCHEDULE)? else {
        return Ok(None);
    };
    let Some(stop) = text_at(alloc, path, STOP)? else {
        return Ok(None);
    };
    match choices_in(alloc, form)? {
        Some(choices) => Ok(Some(StopAsked {
            schedule,
            stop,
            choices,
        })),
        None => Ok(None),
    }
}

fn feed_at(alloc: Global, path: &str, form: &[u8]) -> Result<Query, NoMemory>
    ensures { IfOk result (λ query. query ≡ or_bad (feed_query path.now form.now)) }
{
    let Some(schedule) = text_at(alloc, path, SCHEDULE)? else {
        return Ok(Query::Refused(400));
    };
    match since_in(alloc, form)? {
        Some(since) => Ok(Query::Feed { schedule, since }),
        None => Ok(Query::Refused(400)),
    }
}

fn unmatched_at(alloc: Global, path: &str) -> Result<Query, NoMemory>
    ensures { IfOk result (λ query. query
        ≡ or_bad (option_map (λ schedule. Query.Unmatched schedule) (text_at path.now 2))) }
{
    match text_at(alloc, path, SCHEDULE)? {
        Some(schedule) => Ok(Query::Unmatched { schedule }),
        None => Ok(Query::Refused(400)),
    }
}
