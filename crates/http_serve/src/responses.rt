//! Makes each response whole in the buffer in which it is sent.
ghost use Rattle.std.specs.Prelude.{◌≡◌, ◌≤◌, ◌<◌, true, Some, List, length, drop, IfOk, IsSome};
ghost use Rattle.text_defs.specs.Moments.{last_moment};
ghost use Rattle.board_defs.specs.Fold.{FeedFold};
ghost use Rattle.board_defs.specs.Views.{folds_of};
ghost use Rattle.delta_defs.specs.Changes.{changes_bytes};
ghost use Rattle.delta_defs.specs.Kept.{folds_at};
ghost use Rattle.delta_defs.specs.OneHistory.{AreOfOneHistory};
ghost use Rattle.http_defs.specs.declared.response.BodyKind.TheVariants as kinds;
ghost use Rattle.http_serve_defs.specs.Questions.{is_status, is_refusal, IsAskable};
ghost use Rattle.http_serve_defs.specs.Answers.{answer, changes_answer, found, refused, query_answered, item_answered, whole_answered, closes_behind};
ghost use Rattle.http_serve.specs.Headings.{Appends};

use crate::NoMemory;
use crate::questions::{feed_since, kind_of, question_of, refusal_code};
use board_parts::HubView;
use delta_out::{Kept, since};
use http_defs::{BodyKind, Item, Query};
use http_routes::{LONGEST_HEAD, Routes, put_head, refusal_body};
use std::alloc::Global;
use view_answers::{answer, schedule_number};

/// The status and the type of a body.
#[derive(Clone, Copy)]
pub(crate) struct Heading {
    status: u16,
    kind: BodyKind,
}

/// What responses are made with, and the last one.
#[derive(Drop)]
pub(crate) struct Responder {
    routes: Routes,
    // Room for a head, and after it a body.
    bytes: Vec<u8>,
}

impl Responder {
    /// One that has made no response; or want of memory.
    pub(crate) fn new(alloc: Global) -> Result<Responder, NoMemory> {
        Ok(Responder {
            routes: Routes::new(alloc)?,
            bytes: Vec::new(alloc),
        })
    }

    /// Makes the response to an item, which may be the thousandth of its connection, of the
    /// messages that the view holds and of the views that are kept of the same history, at a moment
    /// up to the end of the year 9999; or runs out of memory. Answers where in `bytes` it begins:
    /// the body is written where it is sent from, and then its head is put before it.
    #[tactic(auto, unfolding(http_serve_defs::specs::Answers::answer))]
    pub(crate) fn respond(
        &mut self,
        view: &HubView,
        kept: &Kept,
        item: &Item,
        thousandth: bool,
        number: u64,
        moment: u64,
    ) -> Result<usize, NoMemory>
        requires moment { moment ≤ last_moment }
        requires one_history { AreOfOneHistory kept.now view.now }
        ensures begins_within { IfOk result (λ start. start ≤ length self.new.bytes.items) }
        ensures made { IfOk result (λ start. drop start self.new.bytes.items
            ≡ answer view.now.plans item.now thousandth moment number (folds_of view.now)
            kept.now) }
    {
        self.bytes.resize(LONGEST_HEAD, 0)?;
        let heading = answer_item(&self.routes, view, kept, item, moment, &mut self.bytes)?;
        put_head(
            heading.status,
            heading.kind,
            number,
            moment,
            closes_behind(item, thousandth),
            &mut self.bytes,
        )
    }

    /// The bytes from a place on.
    pub(crate) fn bytes_from(&self, start: usize) -> &[u8]
        requires { start ≤ length self.now.bytes.items }
        ensures { result.now ≡ drop start self.now.bytes.items }
    {
        &self.bytes[start..]
    }
}

/// Appends the body of the answer to an item.
fn answer_item(
    routes: &Routes,
    view: &HubView,
    kept: &Kept,
    item: &Item,
    moment: u64,
    bytes: &mut Vec<u8>,
) -> Result<Heading, NoMemory>
    requires moment { moment ≤ last_moment }
    requires one_history { AreOfOneHistory kept.now view.now }
    ensures answered { IfOk result (λ heading. Appends heading bytes.old.items bytes.new.items
        (item_answered view.now.plans (folds_of view.now) kept.now item.now moment)) }
    ensures status { IfOk result (λ heading. is_status heading.status ≡ true) }
{
    match item {
        Item::Malformed => refuse(400, bytes),
        Item::Asked(request) => {
            let alloc = *bytes.allocator();
            let query = routes.query(alloc, request)?;
            answer_query(alloc, view, kept, &query, moment, bytes)
        }
    }
}

/// Appends the body of the answer to a query: of a feed since a view that is kept what changed, and
/// of all else the whole.
fn answer_query(
    alloc: Global,
    view: &HubView,
    kept: &Kept,
    query: &Query,
    moment: u64,
    bytes: &mut Vec<u8>,
) -> Result<Heading, NoMemory>
    requires askable { IsAskable query.now }
    requires moment { moment ≤ last_moment }
    requires one_history { AreOfOneHistory kept.now view.now }
    ensures answered { IfOk result (λ heading. Appends heading bytes.old.items bytes.new.items
        (query_answered view.now.plans (folds_of view.now) kept.now query.now moment)) }
    ensures status { IfOk result (λ heading. is_status heading.status ≡ true) }
{
    match feed_since(query, kept) {
        Some(asked) => answer_since(alloc, view, kept, asked.schedule, asked.number, bytes),
        None => answer_whole(alloc, view, query, moment, bytes),
    }
}

/// Appends what changed in the feed of a schedule since the view of a number, which is kept.
fn answer_since(
    alloc: Global,
    view: &HubView,
    kept: &Kept,
    schedule: &str,
    number: u64,
    bytes: &mut Vec<u8>,
) -> Result<Heading, NoMemory>
    requires kept { IsSome (folds_at number kept.now) }
    requires one_history { AreOfOneHistory kept.now view.now }
    ensures answered { (old : List FeedFold) → folds_at number kept.now ≡ Some old
        → IfOk result (λ heading. Appends heading bytes.old.items bytes.new.items
        (found kinds.Feed (changes_answer view.now.plans (folds_of view.now)
        (record { schedule = schedule.now; old = old })))) }
    ensures status { IfOk result (λ heading. is_status heading.status ≡ true) }
{
    match schedule_number(view.plans(), schedule) {
        Some(plan) => push_changes(alloc, view, kept, plan, number, bytes),
        None => refuse(404, bytes),
    }
}

/// Appends the same of the schedule of that number.
fn push_changes(
    alloc: Global,
    view: &HubView,
    kept: &Kept,
    plan: u32,
    number: u64,
    bytes: &mut Vec<u8>,
) -> Result<Heading, NoMemory>
    requires plan { plan < length view.now.plans.plans }
    requires kept { IsSome (folds_at number kept.now) }
    requires one_history { AreOfOneHistory kept.now view.now }
    ensures answered { (old : List FeedFold) → folds_at number kept.now ≡ Some old
        → IfOk result (λ heading. Appends heading bytes.old.items bytes.new.items
        (found kinds.Feed (Some (changes_bytes view.now.plans plan old (folds_of view.now))))) }
    ensures status { IfOk result (λ heading. is_status heading.status ≡ true) }
{
    let changes = since(alloc, kept, view, plan, number)?;
    bytes.extend_from_slice(changes.as_slice())?;
    Ok(Heading {
        status: 200,
        kind: BodyKind::Feed,
    })
}

/// Appends the body of the answer to a query, whatever was seen before.
fn answer_whole(
    alloc: Global,
    view: &HubView,
    query: &Query,
    moment: u64,
    bytes: &mut Vec<u8>,
) -> Result<Heading, NoMemory>
    requires askable { IsAskable query.now }
    requires moment { moment ≤ last_moment }
    ensures answered { IfOk result (λ heading. Appends heading bytes.old.items bytes.new.items
        (whole_answered view.now.plans (folds_of view.now) query.now moment)) }
    ensures status { IfOk result (λ heading. is_status heading.status ≡ true) }
{
    let Some(question) = question_of(query, moment) else {
        return refuse(refusal_code(query), bytes);
    };
    if answer(alloc, view, &question, bytes)? {
        return Ok(Heading {
            status: 200,
            kind: kind_of(&question),
        });
    }
    refuse(404, bytes)
}

/// Appends the body of a refusal with that status.
fn refuse(status: u16, bytes: &mut Vec<u8>) -> Result<Heading, NoMemory>
    requires { is_refusal status ≡ true }
    ensures answered { IfOk result (λ heading. Appends heading bytes.old.items bytes.new.items
        (refused status)) }
    ensures status { IfOk result (λ heading. is_status heading.status ≡ true) }
{
    bytes.extend_from_slice(refusal_body(status))?;
    Ok(Heading {
        status,
        kind: BodyKind::Text,
    })
}

/// Whether the connection closes behind the answer to an item.
#[tactic(auto, unfolding(http_defs::specs::Requests::closes_after, http_serve_defs::specs::Answers::closes_behind))]
pub(crate) fn closes_behind(item: &Item, thousandth: bool) -> bool
    ensures { result ≡ closes_behind item.now thousandth }
{
    match item {
        Item::Malformed => true,
        Item::Asked(request) => {
            request.close || request.method.as_str() != "GET" || request.body || thousandth
        }
    }
}
