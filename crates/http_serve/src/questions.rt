//! What queries ask of a hub.
ghost use Rattle.std.specs.Prelude.{◌≡◌, true, ℕ, List, None, MatchOption};
ghost use Rattle.std.specs.Option.{option_map};
ghost use Rattle.view_answers.specs.Questions.{question_seen};
ghost use Rattle.http_serve_defs.specs.Questions.{question_of};
ghost use Rattle.http_serve_defs.specs.Answers.{feed_since, kind_of, refusal_code, since_view};
ghost use Rattle.http_serve.specs.Views.{IsFeedSince, IsSince};

use delta_out::Kept;
use http_defs::{BodyKind, Query};
use view_answers::{BoardAsked, Question};

/// The question of a query at a moment; none where it is refused.
pub(crate) fn question_of<'a>(query: &'a Query, moment: u64) -> Option<Question<'a>>
    ensures { option_map question_seen result ≡ question_of query.now moment }
{
    match query {
        Query::Board {
            schedule,
            stop,
            span,
            limit,
            json,
        } => Some(Question::Board(BoardAsked {
            schedule: schedule.as_str(),
            stop: stop.as_str(),
            at: moment,
            span: *span,
            limit: *limit,
            json: *json,
        })),
        Query::Feed { schedule, .. } => Some(Question::Feed {
            schedule: schedule.as_str(),
        }),
        Query::Alerts {
            schedule,
            stop,
            span,
            limit,
            json,
        } => Some(Question::Alerts(BoardAsked {
            schedule: schedule.as_str(),
            stop: stop.as_str(),
            at: moment,
            span: *span,
            limit: *limit,
            json: *json,
        })),
        Query::Unmatched { schedule } => Some(Question::Unmatched {
            schedule: schedule.as_str(),
        }),
        Query::Status => Some(Question::Status),
        Query::Refused(_) => None,
    }
}

/// A feed that is asked for since a view.
#[derive(Clone, Copy)]
pub(crate) struct Since<'a> {
    /// The schedule's name.
    pub(crate) schedule: &'a str,
    /// The number of the view.
    pub(crate) number: u64,
}

/// The feed that a query asks for since a view that is kept, if it does so.
pub(crate) fn feed_since<'a>(query: &'a Query, kept: &Kept) -> Option<Since<'a>>
    ensures { MatchOption result (feed_since query.entry.now kept.now ≡ None)
        (λ since. IsFeedSince query.entry.now kept.now since.schedule.now since.number) }
{
    match query {
        Query::Feed { schedule, since } => {
            let number = kept_number(*since, kept)?;
            Some(Since {
                schedule: schedule.as_str(),
                number,
            })
        }
        Query::Board { .. }
        | Query::Alerts { .. }
        | Query::Unmatched { .. }
        | Query::Status
        | Query::Refused(_) => None,
    }
}

/// The number of a view that is asked for, if one is and it is kept.
fn kept_number(since: Option<u64>, kept: &Kept) -> Option<u64>
    ensures { MatchOption result ((schedule : List ℕ) → since_view schedule since kept.now ≡ None)
        (λ number. IsSince since kept.now number) }
{
    let number = since?;
    if !kept.has(number) {
        return None;
    }
    Some(number)
}

/// The status of a query that has no question: that of its refusal; for any other 404.
pub(crate) fn refusal_code(query: &Query) -> u16
    ensures { result ≡ refusal_code query.now }
{
    match query {
        Query::Refused(status) => *status,
        Query::Board { .. }
        | Query::Feed { .. }
        | Query::Alerts { .. }
        | Query::Unmatched { .. }
        | Query::Status => 404,
    }
}

/// The type of the answer to a question.
pub(crate) fn kind_of(question: &Question<'_>) -> BodyKind
    ensures { result ≡ kind_of (question_seen question.now) }
{
    match *question {
        Question::Feed { .. } => BodyKind::Feed,
        Question::Board(asked) | Question::Alerts(asked) => {
            if asked.json {
                BodyKind::Json
            } else {
                BodyKind::Text
            }
        }
        Question::Unmatched { .. } | Question::Status => BodyKind::Text,
    }
}
