//! The hub that a script works on.
ghost use Rattle.std.specs.Prelude.{◌≡◌, ◌<◌, ◌≤◌, ◌&&◌, [], length, nat_lt, not, position, OnOk, IfOk, MatchOption};
ghost use Rattle.std.specs.Arc.{arc_value};
ghost use Rattle.std.specs.List.{list_any};
ghost use Rattle.std.specs.Option.{option_map};
ghost use Rattle.std.specs.Str.{bytes_eq};
ghost use Rattle.text_defs.specs.Moments.{last_moment};
ghost use Rattle.text_defs.specs.Names.{is_name};
ghost use Rattle.sched_types.specs.Schedules.{AreSchedules};
ghost use Rattle.board_defs.specs.Fold.{fold_of};
ghost use Rattle.board_defs.specs.Views.{hub_first};
ghost use Rattle.board_text_defs.specs.Answers.{feed_number, IsAsked};
ghost use Rattle.view_answers.specs.Questions.{question_seen};
ghost use Rattle.hub_replay_defs.specs.Record.{start, configured, most_feeds, plain_schedules};
ghost use Rattle.hub_replay.specs.Feeds.{declaring, running, hub_given, shown_hub, Answers, Declares, Serves, Tells};

use crate::NoMemory;
use board_parts::Oracle;
use http_serve::{ConnectionServer, Transcript};
use hub_core::Refusal;
use hub_state::ReplayHub;
use rt_types::Text;
use sched_types::{NamedFeed, NamedPlan, Plan, Plans};
use std::alloc::Global;
use std::marker::Model;
use std::mem;
use std::sync::Arc;
use texts::is_name;
use view_answers::Question;

/// The most feeds.
const MOST_FEEDS: usize = 64;

/// Where a script stands: it declares feeds, or runs on the hub that has them.
#[derive(Drop)]
pub(crate) enum ScriptState {
    /// Only feeds were declared so far, each of the one schedule `plain`.
    Declaring(Vec<NamedFeed>),
    /// No feed can be declared any more: another record came, or there is a configuration.
    Running(ReplayHub),
}

/// The hub of a script. Without a configuration it is made at the first record that declares no
/// feed. Its connections are served with the same router and buffers.
#[derive(Drop)]
pub(crate) struct ScriptHub {
    state: ScriptState,
    server: ConnectionServer,
}

impl Model for ScriptHub {
    ghost use Rattle.sched_types.specs.Schedules.{AreSchedules};
    ghost use Rattle.hub_replay_defs.specs.Record.{Hub};
    ghost use Rattle.hub_replay.specs.Feeds.{hub_of};

    ghost Value = { Hub };

    ghost view = { λ hub. hub_of hub.state };

    ghost invariant = { λ hub. AreSchedules (hub_of hub.state).plans };
}

impl ScriptHub {
    /// The hub of these timetables and feeds; without any, one that has no feeds yet.
    pub(crate) fn new(alloc: Global, plans: Option<Arc<Plans>>) -> Result<ScriptHub, NoMemory>
        ensures { IfOk result (λ hub. hub ≡ hub_given (option_map arc_value plans)) }
    {
        match plans {
            Some(plans) => ScriptHub::configured(alloc, plans),
            None => Ok(ScriptHub::start(alloc)),
        }
    }

    /// No feeds yet. It takes no memory.
    fn start(alloc: Global) -> ScriptHub
        ensures { result ≡ start }
    {
        ScriptHub {
            state: ScriptState::Declaring(Vec::new(alloc)),
            server: ConnectionServer::new(alloc),
        }
    }

    /// The hub of a configuration, which declares no feeds.
    fn configured(alloc: Global, plans: Arc<Plans>) -> Result<ScriptHub, NoMemory>
        ensures { IfOk result (λ hub. hub ≡ configured (arc_value plans)) }
    {
        let hub = ReplayHub::new(alloc, plans)?;
        hub.sound();
        Ok(ScriptHub {
            state: ScriptState::Running(hub),
            server: ConnectionServer::new(alloc),
        })
    }

    /// Declares a feed of that name where the script may: before all other records, under a new
    /// name of the right form, as one of at most 64. Answers whether it did.
    pub(crate) fn declare(&mut self, alloc: Global, name: &str) -> Result<bool, NoMemory>
        ensures { Declares result self.old self.new name.now }
    {
        match &mut self.state {
            ScriptState::Declaring(feeds) => declare_feed(alloc, feeds, name),
            ScriptState::Running(_) => Ok(false),
        }
    }

    /// The number of the feed of that name, counted from 0 in the order of their records, or of the
    /// configuration.
    #[tactic(auto, unfolding(board_text_defs::specs::Answers::feed_number))]
    pub(crate) fn feed_number(&self, name: &str) -> Option<u32>
        ensures { MatchOption result (feed_number self.now.plans name.now ≡ None)
            (λ k. (k < length self.now.plans.feeds)
            × (feed_number self.now.plans name.now ≡ Some k)) }
    {
        match feed_place(self.feeds(), name) {
            Some(place) => Some(place as u32),
            None => None,
        }
    }

    /// The feeds that it has.
    fn feeds(&self) -> &[NamedFeed]
        ensures are { result.now ≡ self.now.plans.feeds }
        ensures few { length result.now ≤ 64 }
    {
        match &self.state {
            ScriptState::Declaring(feeds) => feeds.as_slice(),
            ScriptState::Running(hub) => hub.view().plans().feeds(),
        }
    }

    /// Offers a message to the feed of that number. From here on no feed can be declared.
    pub(crate) fn offer(&mut self, alloc: Global, feed: u32, bytes: &[u8]) -> Result<u64, Refusal>
        requires { feed < length self.old.plans.feeds }
        ensures { Answers feed bytes.now self.old self.new result }
    {
        match &mut self.state {
            ScriptState::Running(hub) => hub.offer(feed, bytes),
            ScriptState::Declaring(feeds) => {
                let mut hub = hub_with(alloc, feeds)?;
                let answer = hub.offer(feed, bytes);
                self.state = ScriptState::Running(hub);
                answer
            }
        }
    }

    /// Appends what the question is answered, and says whether there is an answer. From here on no
    /// feed can be declared.
    pub(crate) fn tell(
        &mut self,
        alloc: Global,
        question: &Question<'_>,
        out: &mut Vec<u8>,
    ) -> Result<bool, NoMemory>
        requires { IsAsked (question_seen question.now) }
        ensures { Tells result self.old self.new (question_seen question.now)
            out.old.items out.new.items }
    {
        match &mut self.state {
            ScriptState::Running(hub) => tell_of(alloc, hub, question, out),
            ScriptState::Declaring(feeds) => {
                let hub = hub_with(alloc, feeds)?;
                let told = tell_of(alloc, &hub, question, out);
                self.state = ScriptState::Running(hub);
                told
            }
        }
    }

    /// Serves the connection of this input, where each moment is this one, in seconds since 1970 up
    /// to the end of the year 9999. From here on no feed can be declared.
    pub(crate) fn serve(
        &mut self,
        alloc: Global,
        moment: u64,
        input: &[u8],
    ) -> Result<Transcript, NoMemory>
        requires { moment ≤ last_moment }
        ensures { Serves result self.old self.new moment input.now }
    {
        match &mut self.state {
            ScriptState::Running(hub) => serve_on(&mut self.server, hub, moment, input),
            ScriptState::Declaring(feeds) => {
                let mut hub = hub_with(alloc, feeds)?;
                let served = serve_on(&mut self.server, &mut hub, moment, input);
                self.state = ScriptState::Running(hub);
                served
            }
        }
    }

    /// Makes the hub, unless it is there: from here on no feed can be declared.
    pub(crate) fn begin(&mut self, alloc: Global) -> Result<(), NoMemory>
        ensures { OnOk result (self.new ≡ running self.old) }
    {
        match &mut self.state {
            ScriptState::Running(_) => {}
            ScriptState::Declaring(feeds) => {
                let hub = hub_with(alloc, feeds)?;
                self.state = ScriptState::Running(hub);
            }
        }
        Ok(())
    }
}

/// Declares a feed of that name behind those that were declared, where it may be.
fn declare_feed(alloc: Global, feeds: &mut Vec<NamedFeed>, name: &str) -> Result<bool, NoMemory>
    requires { AreSchedules (plain_schedules feeds.old.items) }
    ensures sound { AreSchedules (plain_schedules feeds.new.items) }
    ensures declares { Declares result (declaring feeds.old.items) (declaring feeds.new.items)
        name.now }
{
    if !is_new_name(feeds, name) {
        return Ok(false);
    }
    let name = Text::new(alloc, name)?;
    feeds.push(NamedFeed {
        name,
        plan: 0,
        max_age: 0,
    })?;
    Ok(true)
}

/// The hub of these feeds, which it takes, and of the schedule `plain`.
fn hub_with(alloc: Global, feeds: &mut Vec<NamedFeed>) -> Result<ReplayHub, NoMemory>
    requires { AreSchedules (plain_schedules feeds.old.items) }
    ensures ok { IfOk result (λ hub. hub ≡ record {
      history = [];
      shown = hub_first (plain_schedules feeds.old.items);
      reads = 0;
    }) }
    ensures taken { feeds.new.items ≡ [] }
{
    let feeds = mem::replace(feeds, Vec::new(alloc));
    let plans = plain_plans(alloc, feeds)?;
    ReplayHub::new(alloc, plans)
}

/// These feeds, and the schedule `plain`, which has no rows.
fn plain_plans(alloc: Global, feeds: Vec<NamedFeed>) -> Result<Arc<Plans>, NoMemory>
    requires { AreSchedules (plain_schedules feeds.items) }
    ensures { IfOk result (λ plans. arc_value plans ≡ plain_schedules feeds.items) }
{
    let mut plans = Vec::new(alloc);
    plans.push(NamedPlan {
        name: Text::new(alloc, "plain")?,
        prefix: Text::new(alloc, "")?,
        plan: Plan::plain(alloc),
    })?;
    Ok(Arc::new(alloc, Plans::new(plans, feeds))?)
}

/// Appends what the question is answered on a hub, and says whether there is an answer.
fn tell_of(
    alloc: Global,
    hub: &ReplayHub,
    question: &Question<'_>,
    out: &mut Vec<u8>,
) -> Result<bool, NoMemory>
    requires { IsAsked (question_seen question.now) }
    ensures { Tells result (shown_hub hub.now) (shown_hub hub.now) (question_seen question.now)
        out.old.items out.new.items }
{
    hub.sound();
    view_answers::answer(alloc, hub.view(), question, out)
}

/// Serves the connection of this input on a hub, where each moment is this one.
fn serve_on(
    server: &mut ConnectionServer,
    hub: &mut ReplayHub,
    moment: u64,
    input: &[u8],
) -> Result<Transcript, NoMemory>
    requires { moment ≤ last_moment }
    ensures serves { Serves result (shown_hub hub.old) (shown_hub hub.new) moment input.now }
    ensures plans { hub.new.shown.plans ≡ hub.old.shown.plans }
{
    server.serve_bytes(hub, moment, input)
}

/// Whether a feed of that name may follow those.
fn is_new_name(feeds: &[NamedFeed], name: &str) -> bool
    ensures { result ≡ (is_name name.now
        && not (list_any (λ feed. bytes_eq name.now feed.name) feeds.now)
        && nat_lt (length feeds.now) most_feeds) }
{
    is_name(name.as_bytes()) && !is_among(feeds, name) && feeds.len() < MOST_FEEDS
}

/// Whether one of the feeds has the name.
fn is_among(feeds: &[NamedFeed], name: &str) -> bool
    ensures { result ≡ list_any (λ feed. bytes_eq name.now feed.name) feeds.now }
{
    feeds.iter().any(|feed| name == feed.name.as_str())
}

/// The place of the first of the feeds that has the name, within the feeds.
fn feed_place(feeds: &[NamedFeed], name: &str) -> Option<usize>
    ensures { MatchOption result (position (λ feed. bytes_eq name.now feed.name) feeds.now ≡ None)
        (λ k. (k < length feeds.now)
        × (position (λ feed. bytes_eq name.now feed.name) feeds.now ≡ Some k)) }
{
    first_place(feeds, name)
}

fn first_place(feeds: &[NamedFeed], name: &str) -> Option<usize>
    ensures { result ≡ position (λ feed. bytes_eq name.now feed.name) feeds.now }
{
    feeds.iter().position(|feed| name == feed.name.as_str())
}
