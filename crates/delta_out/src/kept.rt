//! The views that a reader keeps.

ghost use Rattle.std.specs.Prelude.{◌≡◌, [], map, is_some, IfOk, OnOk, OnErr};
ghost use Rattle.std.specs.List.{find};
ghost use Rattle.std.specs.Arc.{arc_value};
ghost use Rattle.std.specs.Option.{option_copied};
ghost use Rattle.board_defs.specs.Views.{folds_of};
ghost use Rattle.delta_defs.specs.Kept.{folds_at, is_newest, is_numbered, view_of, views_with};

use crate::NoMemory;
use board_parts::HubView;
use circular_buffer::HeapCircularBuffer;
use entity_table::Table;
use feed_view::FeedView;
use std::alloc::Global;
use std::marker::Model;
use std::sync::Arc;

/// How many views are kept at most.
const MOST_KEPT: usize = 64;

/// What a reader keeps of its last looks at a hub, up to 64 of them: of each how many messages
/// there were, and what each feed said. A contract sees the list of them, the oldest first.
#[derive(Drop)]
pub struct Kept {
    views: HeapCircularBuffer<KeptView>,
}

impl Model for Kept {
    ghost use Rattle.std.specs.Prelude.{◌≡◌, List};
    ghost use Rattle.delta_defs.specs.Kept.{KeptView, most_kept};

    ghost Value = { List KeptView };

    ghost view = { λ kept. kept.views.items };

    ghost invariant = { λ kept. kept.views.capacity ≡ most_kept };
}

impl Kept {
    /// A list of no views with room for 64, or out of memory.
    pub fn new(alloc: Global) -> Result<Kept, NoMemory>
        ensures { IfOk result (λ kept. kept ≡ []) }
    {
        Ok(Kept {
            views: HeapCircularBuffer::with_capacity(alloc, MOST_KEPT)?,
        })
    }

    /// Adds a view at the end, unless the newest has its number; of 64 the oldest goes. Out of
    /// memory leaves all as it was.
    pub fn put(&mut self, view: &HubView) -> Result<(), NoMemory>
        ensures with { OnOk result (self.new ≡ views_with (view_of view.now) self.old) }
        ensures kept { OnErr result (self.new ≡ self.old) }
    {
        if self.is_newest(view.entries()) {
            return Ok(());
        }
        let alloc = *self.views.allocator();
        let view = KeptView::of(alloc, view)?;
        let _oldest = self.views.push_back(view);
        Ok(())
    }

    /// Whether the view at that number of messages is kept. It takes no memory.
    pub fn has(&self, number: u64) -> bool
        ensures { result ≡ is_some (folds_at number self.now) }
    {
        self.at(number).is_some()
    }

    /// The view at that number, if it is kept.
    pub(crate) fn at(&self, number: u64) -> Option<&KeptView>
        ensures { option_copied result ≡ find (is_numbered number) self.entry.now }
    {
        self.views.iter().find(|view| view.number == number)
    }

    /// Whether the newest view has that number.
    fn is_newest(&self, number: u64) -> bool
        ensures { result ≡ is_newest number self.now }
    {
        match self.views.back() {
            Some(view) => view.number == number,
            None => false,
        }
    }
}

/// What is kept of a view of a hub. A contract sees it as `KeptView` of `delta_defs`.
#[derive(Drop)]
pub(crate) struct KeptView {
    // How many messages of all feeds were accepted.
    number: u64,
    // One for each feed of the hub.
    feeds: Vec<KeptFeed>,
}

impl Model for KeptView {
    ghost use Rattle.delta_defs.specs.Kept.{KeptView};

    ghost Value = { KeptView };

    ghost view = { λ view. record { number = view.number; folds = view.feeds.items } };
}

impl KeptView {
    /// The same of a view, with which it shares all that feeds hold; or out of memory.
    fn of(alloc: Global, view: &HubView) -> Result<KeptView, NoMemory>
        ensures { IfOk result (λ kept. kept ≡ view_of view.now) }
    {
        Ok(KeptView {
            number: view.entries(),
            feeds: feeds_of(alloc, view.feeds())?,
        })
    }

    /// What each feed said, by its number.
    pub(crate) fn feeds(&self) -> &[KeptFeed]
        ensures { result.now ≡ self.now.folds }
    {
        self.feeds.as_slice()
    }
}

/// What is kept of each feed, or out of memory.
fn feeds_of(alloc: Global, views: &[Arc<FeedView>]) -> Result<Vec<KeptFeed>, NoMemory>
    ensures { IfOk result (λ feeds. feeds.items
        ≡ map (λ view. view.fold) (map arc_value views.now)) }
{
    let mut feeds = Vec::with_capacity(alloc, views.len())?;
    for view in views {
        feeds.push(KeptFeed::of(view)?)?;
    }
    Ok(feeds)
}

/// What is kept of a feed, without what its updates come to. A contract sees it as `FeedFold` of
/// `board_defs`.
#[derive(Drop)]
pub(crate) struct KeptFeed {
    table: Table,
    stamp: u64,
    count: u64,
}

impl Model for KeptFeed {
    ghost use Rattle.board_defs.specs.Fold.{FeedFold};

    ghost Value = { FeedFold };

    ghost view = { λ feed. record {
      count = feed.count;
      stamp = feed.stamp;
      entities = feed.table;
    } };
}

impl KeptFeed {
    /// The same of a feed's view, or out of memory.
    fn of(view: &FeedView) -> Result<KeptFeed, NoMemory>
        ensures { IfOk result (λ feed. feed ≡ view.now.fold) }
    {
        Ok(KeptFeed {
            table: view.table().share()?,
            stamp: view.stamp(),
            count: view.count(),
        })
    }

    /// What the feed held.
    pub(crate) fn table(&self) -> &Table
        ensures { result.now ≡ self.now.entities }
    {
        &self.table
    }

    /// The stamp of its last message, 0 if it had none.
    pub(crate) fn stamp(&self) -> u64
        ensures { result ≡ self.now.stamp }
    {
        self.stamp
    }
}
