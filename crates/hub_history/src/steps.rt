//! The steps of an author at the book.

ghost use Rattle.std.specs.Prelude.{◌≡◌, ◌+◌, ◌≤◌, ◌^◌, true, [], ◌∷◌, ◌++◌, length, None, IfSome};
ghost use mathlib.Core.List.{IsPrefix};
ghost use Rattle.logbook.specs.Pages.{nib, may_make, may_write};
ghost use Rattle.hub_history.specs.Log.{is_orderly};
ghost use Rattle.hub_history.specs.Rules.{head_of, count_of};
ghost use Rattle.hub_history.specs.Told.{first_away};

use crate::item::LogItem;
use crate::law::{Adds, Closes, Confirms, Grows, Law, Nothing};
use logbook::{Offer, Pen, Plain, Seen, Word};

/// Makes the cell behind so many, and gives its pen; or none, where there are more.
pub(crate) fn another(
    count: &Word<LogItem, u64, Law>,
    seen: &Seen<LogItem, u64, Law>,
    made: u64,
) -> Option<Pen>
    requires word { count.now ≡ count_of seen.now.book }
    requires room { made ≤ 2 ^ 62 }
    ensures book { IfSome result (λ pen. pen.book ≡ seen.now.book) }
    ensures nib { IfSome result (λ pen. pen.nib ≡ nib may_make (made + 2) 0) }
{
    let mut look = seen.again();
    let mut offer: Offer<LogItem, u64, Law, Nothing> = look.plain::<Nothing, (), Closes>(&());
    let mut pen = look.no_pen();
    let found = count.compare_exchange::<Grows, Nothing>(
        made,
        made + 1,
        &mut look,
        &mut offer,
        &mut pen,
    );
    if found == made { Some(pen) } else { None }
}

/// The pen of a cell that was just made, with the right to bring it home.
pub(crate) fn written(pen: Pen) -> Pen
    requires { pen.nib.right ≡ may_make }
    ensures book { result.book ≡ pen.book }
    ensures nib { result.nib ≡ nib may_write pen.nib.key 0 }
{
    let mut pen = pen;
    let _cell: Word<LogItem, u64, Law> = Word::tracked(0, &mut pen);
    pen
}

/// Adds the item that `M` asks for to all that was seen.
pub(crate) fn add<M: Plain<(), LogItem, u64>>(
    head: &Word<LogItem, u64, Law>,
    seen: &mut Seen<LogItem, u64, Law>,
    pen: &mut Pen,
    items: u64,
)
    requires word { head.now ≡ head_of seen.old.book }
    requires pen { pen.old.book ≡ seen.old.book }
    requires away { pen.old.nib ≡ first_away (length seen.old.log) }
    requires items { items ≡ length seen.old.log }
    requires room { items ≤ 2 ^ 62 }
    requires plain { M.state tt ≡ None }
    requires orderly { is_orderly (seen.old.log ++ M.ask tt ∷ []) ≡ true }
    ensures book { seen.new.book ≡ seen.old.book }
    ensures added { seen.new.log ≡ seen.old.log ++ M.ask tt ∷ [] }
    ensures pen { pen.new.book ≡ pen.old.book }
{
    let mut offer: Offer<LogItem, u64, Law, Nothing> = seen.plain::<Nothing, (), M>(&());
    head.compare_exchange::<Adds, Nothing>(items, items + 1, seen, &mut offer, pen);
}

/// The log is no longer than the author knows.
pub(crate) fn confirm(
    head: &Word<LogItem, u64, Law>,
    both: &mut Seen<LogItem, u64, Law>,
    pen: &mut Pen,
    items: u64,
)
    requires word { head.now ≡ head_of both.old.book }
    requires pen { pen.old.book ≡ both.old.book }
    requires away { pen.old.nib ≡ first_away items }
    ensures pen { pen.new.book ≡ pen.old.book }
    ensures nib { pen.new.nib ≡ pen.old.nib }
    ensures longer { IsPrefix both.old.log both.new.log }
    ensures few { length both.new.log ≤ items }
{
    let mut offer: Offer<LogItem, u64, Law, Nothing> = both.plain::<Nothing, (), Closes>(&());
    head.compare_exchange::<Confirms, Nothing>(items, items, both, &mut offer, pen);
}
