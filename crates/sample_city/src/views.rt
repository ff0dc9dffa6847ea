//! What is known of the feeds of a view.

ghost use Rattle.std.specs.Prelude.{◌≡◌, ◌<◌, length};
ghost use Rattle.board_defs.specs.Views.{feed_at};

use board_parts::HubView;

/// The stamp of the last message of that feed; 0 where it sent none.
pub fn last_stamp(view: &HubView, feed: u32) -> u64
    requires { feed < length view.now.plans.feeds }
    ensures { result ≡ (feed_at view.now feed).fold.stamp }
{
    view.sound();
    view.feed(feed).stamp()
}
