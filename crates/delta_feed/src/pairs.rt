//! What a feed held and what it holds, id by id.

ghost use Rattle.std.specs.Prelude.{◌≡◌, true, [], ◌∷◌, MatchOption};
ghost use Rattle.std.specs.Iterator.{YieldsFirst, item_count};
ghost use Rattle.std.specs.Option.{option_copied};
ghost use Rattle.delta_feed.specs.Pairs as rule;
ghost use Rattle.delta_feed.specs.Pairs.{are_rising, by_own_id, pairs_of};

use crate::left::Left;
use entity_table::{Stored, Table};
use std::marker::Model;

/// An id with what a feed held under it and what it holds. A contract sees it as `IdPair`.
#[derive(Drop)]
pub(crate) struct Pair<'a> {
    pub(crate) id: &'a str,
    pub(crate) was: Option<&'a Stored>,
    pub(crate) is: Option<&'a Stored>,
}

impl<'a> Model for Pair<'a> {
    ghost use Rattle.std.specs.Option.{option_copied};
    ghost use Rattle.delta_feed.specs.Pairs.{IdPair};

    ghost Value = { IdPair };

    ghost view = { λ pair. record {
      id = pair.id.now;
      was = option_copied pair.was;
      is = option_copied pair.is;
    } };
}

/// All ids of two tables, in byte order, with what each has under them. A contract sees the list of
/// those that are left.
#[derive(Drop)]
pub(crate) struct Pairs<'a> {
    old: Left<'a>,
    new: Left<'a>,
}

impl<'a> Model for Pairs<'a> {
    ghost use Rattle.std.specs.Prelude.{◌≡◌, List, true};
    ghost use Rattle.delta_feed.specs.Pairs.{IdPair, are_rising, by_own_id, pairs_of};

    ghost Value = { List IdPair };

    ghost view = { λ pairs. pairs_of (by_own_id pairs.old) (by_own_id pairs.new) };

    ghost invariant = { λ pairs. (are_rising pairs.old ≡ true) × (are_rising pairs.new ≡ true) };
}

impl<'a> Pairs<'a> {
    /// All of two tables.
    pub(crate) fn of(old: &'a Table, new: &'a Table) -> Pairs<'a>
        ensures { result ≡ pairs_of old.entry.now new.entry.now }
    {
        old.sound();
        new.sound();
        Pairs {
            old: Left::of(old),
            new: Left::of(new),
        }
    }
}

impl<'a> Iterator for Pairs<'a> {
    type Item = Pair<'a>;

    ghost next_gives = { YieldsFirst (λ left. left) };

    ghost remaining = { item_count (λ left. left) };

    fn next(&mut self) -> Option<Pair<'a>> {
        next_of(&mut self.old, &mut self.new)
    }
}

/// The lesser of the first ids, with what each has under it, which goes.
fn next_of<'a>(old: &mut Left<'a>, new: &mut Left<'a>) -> Option<Pair<'a>>
    requires old { are_rising old.old ≡ true }
    requires new { are_rising new.old ≡ true }
    ensures next { MatchOption result
        ((pairs_of (by_own_id old.old) (by_own_id new.old) ≡ [])
        × (pairs_of (by_own_id old.new) (by_own_id new.new) ≡ []))
        (λ pair. pairs_of (by_own_id old.old) (by_own_id new.old)
        ≡ pair ∷ pairs_of (by_own_id old.new) (by_own_id new.new)) }
    ensures old { are_rising old.new ≡ true }
    ensures new { are_rising new.new ≡ true }
{
    match least_id(old.first(), new.first()) {
        Some(id) => Some(Pair {
            id,
            was: old.take_under(id),
            is: new.take_under(id),
        }),
        None => None,
    }
}

/// The lesser id of two entities of which either may be absent.
fn least_id<'a>(was: Option<&'a Stored>, is: Option<&'a Stored>) -> Option<&'a str>
    ensures { option_copied result
        ≡ rule.least_id (option_copied was.entry) (option_copied is.entry) }
{
    match (was, is) {
        (Some(was), Some(is)) => Some(lesser(id_of(was), id_of(is))),
        (Some(was), None) => Some(id_of(was)),
        (None, Some(is)) => Some(id_of(is)),
        (None, None) => None,
    }
}

/// The id of an entity.
fn id_of(stored: &Stored) -> &str
    ensures { result.now ≡ stored.entry.now.entity.id }
{
    stored.entity.id.as_str()
}

/// The lesser of two ids by their bytes.
fn lesser<'a>(was: &'a str, is: &'a str) -> &'a str
    ensures { result.now ≡ rule.lesser was.entry.now is.entry.now }
{
    if was.cmp(is).is_gt() { is } else { was }
}
