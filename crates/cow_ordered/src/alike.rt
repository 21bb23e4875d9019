ghost use Rattle.std.specs.Prelude.{◌≡◌, map, IsTrue, ◌↔◌};

use cow_cell::Stock;
use cow_item::Key;

/// Whether the two have the same keys in the same order. One pass at most, and none where their counts differ.
pub(crate) fn alike<K: Key<Q>, Q: Stock>(left: &[K], right: &[K]) -> bool
    ensures { IsTrue result ↔ (map K.plain left.now ≡ map K.plain right.now) }
{
    if left.len() != right.len() {
        return false;
    }
    for i in 0..left.len() {
        if !left[i].same(&right[i]) {
            return false;
        }
    }
    true
}
