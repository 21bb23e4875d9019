// Keys, by their plain values.
ghost use Rattle.std.specs.Prelude.{◌≡◌};
ghost use Rattle.cow_model.specs.Canon.{is_one, is_before};

use cow_cell::Stock;
use cow_item::{Equivalent, Key};

/// Whether two keys are one.
pub(crate) fn same<K: Key<Q>, Q: Stock>(a: &K, b: &K) -> bool
    ensures { result ≡ is_one (K.plain a.now) (K.plain b.now) }
{
    a.same(b)
}

/// Whether a key is the one that is looked for.
pub(crate) fn is_sought<K: Key<Q>, E: Equivalent<K, Q>, Q: Stock>(key: &K, sought: &E) -> bool
    ensures { result ≡ is_one (K.plain key.now) (E.sought sought.now) }
{
    sought.stands_for(key)
}

/// Whether the first of two keys comes first.
pub(crate) fn stands_before<K: Key<Q>, Q: Stock>(a: &K, b: &K) -> bool
    ensures { result ≡ is_before (K.plain a.now) (K.plain b.now) }
{
    a.order(b).is_lt()
}
