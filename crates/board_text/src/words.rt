//! The words of a board's cells.

ghost use Rattle.std.specs.Prelude.{◌≡◌};
ghost use Rattle.board_text_defs.specs.BoardText.{state_word};

use board_defs::RowState;

/// What is known of a departure.
pub(crate) fn word_of(state: RowState) -> &'static str
    ensures { result.now ≡ state_word state }
{
    match state {
        RowState::Scheduled => "scheduled",
        RowState::Live => "live",
        RowState::Skipped => "skipped",
        RowState::Canceled => "canceled",
        RowState::Added => "added",
    }
}
