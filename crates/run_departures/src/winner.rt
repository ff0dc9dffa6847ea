//! Which feed's update counts for a run.

ghost use Rattle.std.specs.Prelude.{◌≡◌};
ghost use Rattle.std.specs.Option.{option_map};
ghost use Rattle.run_departures.specs.Bids as rule;
ghost use Rattle.run_departures.specs.Bids.{bid_cmp, winning};
ghost use Rattle.run_departures.specs.Offered.{as_bid, with_bid};

use crate::feed::LiveFeed;
use board_base::counts_at;
use rt_types::Text;
use sched_types::Run;
use std::cmp::Ordering;

/// What a feed has for a run: the stamp of the update that counts in it, its number, and the id of
/// the update's entity.
#[derive(Clone, Copy)]
pub(crate) struct Offer<'a> {
    stamp: u64,
    number: u32,
    id: &'a Text,
}

impl<'a> Offer<'a> {
    /// As updates count: the later one more, then that of the lower feed number, then that of the
    /// greater id.
    fn order(&self, other: &Offer<'a>) -> Ordering
        ensures { result ≡ bid_cmp (as_bid self.entry.now) (as_bid other.entry.now) }
    {
        self.stamp
            .cmp(&other.stamp)
            .then(other.number.cmp(&self.number))
            .then(self.id.as_str().cmp(other.id.as_str()))
    }
}

/// The update of a feed that counts for a run, where it is not too old.
fn offer_of<'a>(feed: &LiveFeed<'a>, at: u64, run: Run) -> Option<Offer<'a>>
    ensures { option_map as_bid result ≡ rule.bid_of at run feed.entry.now }
{
    let overlay = feed.overlay();
    match overlay.chosen(run) {
        Some(chosen) => {
            if counts_at(feed.max_age(), chosen.stamp, at) {
                Some(Offer {
                    stamp: chosen.stamp,
                    number: feed.number(),
                    id: chosen.id,
                })
            } else {
                None
            }
        }
        None => None,
    }
}

/// The one that counts more; of two that count alike the former.
fn greater<'a>(best: Option<Offer<'a>>, offer: Option<Offer<'a>>) -> Option<Offer<'a>>
    ensures { option_map as_bid result
        ≡ with_bid (option_map as_bid best.entry) (option_map as_bid offer.entry) }
{
    match offer {
        Some(offer) => match best {
            Some(best) => {
                if offer.order(&best).is_gt() {
                    Some(offer)
                } else {
                    Some(best)
                }
            }
            None => Some(offer),
        },
        None => best,
    }
}

/// The number of the feed whose update counts for a run at a moment; `None` where no feed has one.
/// It takes one search in each overlay.
pub(crate) fn winner(feeds: &[LiveFeed<'_>], at: u64, run: Run) -> Option<u32>
    ensures { result ≡ winning at feeds.entry.now run }
{
    let mut best = None;
    for feed in feeds {
        best = greater(best, offer_of(feed, at, run));
    }
    match best {
        Some(offer) => Some(offer.number),
        None => None,
    }
}
