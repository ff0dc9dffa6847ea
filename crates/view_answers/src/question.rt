//! What can be asked.

ghost use Rattle.std.specs.Prelude.{◌≡◌};
ghost use Rattle.view_answers.specs.Questions.{question_seen, schedule_of, is_status};

use board_text_defs::BoardAsked;

/// What a hub can be asked.
#[derive(Clone, Copy, Debug)]
pub enum Question<'a> {
    /// The combined feed of a schedule (GTFS Realtime 2.0, FeedMessage).
    Feed {
        /// The name of the schedule.
        schedule: &'a str,
    },
    /// A board of one stop, from a moment on.
    Board(BoardAsked<'a>),
    /// The alerts next to that board: those that are active at its moment and touch its stop or one
    /// of its rows.
    Alerts(BoardAsked<'a>),
    /// What the feeds of a schedule say of trips that it has no run for.
    Unmatched {
        /// The name of the schedule.
        schedule: &'a str,
    },
    /// How many messages each feed sent, and what it holds.
    Status,
}

/// Whether the status is asked for, and so no schedule.
pub(crate) fn is_status(question: &Question<'_>) -> bool
    ensures { result ≡ is_status (question_seen question.now) }
{
    match *question {
        Question::Status => true,
        Question::Feed { .. }
        | Question::Board(_)
        | Question::Alerts(_)
        | Question::Unmatched { .. } => false,
    }
}

/// The name of the schedule that is asked for; empty where none is.
pub(crate) fn schedule_of<'a>(question: &Question<'a>) -> &'a str
    ensures { result.now ≡ schedule_of (question_seen question.now) }
{
    match *question {
        Question::Feed { schedule } | Question::Unmatched { schedule } => schedule,
        Question::Board(asked) | Question::Alerts(asked) => asked.schedule,
        Question::Status => "",
    }
}
