//! The rule of the lock, and the kinds of step.

use crate::keyed::Keyed;
use atomic_table::{Play, TableRule};
use std::marker::PhantomData;

/// The rule of the lock (`specs/Guarded`). As a kind of step it takes the value out where it is at
/// home.
pub struct Guarding<T> {
    of: PhantomData<T>,
}

impl<K, T: Keyed<K>> TableRule<Option<T>, K, K> for Guarding<T> {
    ghost use Rattle.keyed_lock.specs.Guarded.{Guarded};

    ghost holds = { λ key. Guarded (T.fits key) };

    ghost first = { λ key. key };
}

impl<K, T: Keyed<K>> Play<Option<T>, K> for Guarding<T> {
    ghost use Rattle.std.specs.Prelude.{◌≡◌};
    ghost use Rattle.keyed_lock.specs.Guarded.{Seized};

    ghost then = { λ step before found after. found ≡ 0 → Seized (T.fits before.0) after };
}

/// The value comes home.
pub(crate) struct Releasing;

impl<T, K> Play<Option<T>, K> for Releasing {
    ghost then = { λ step before found after. Unit {0} };
}
