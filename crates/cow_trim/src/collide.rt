// Removal from a collision node.
ghost use Rattle.std.specs.Prelude.{◌≡◌, ◌<◌, length, map, slice_index_or, IfSome, IfNone, Some, None, true};
ghost use Rattle.cow_model.specs.Canon.{is_one, get};
ghost use Rattle.cow_champ.specs.Node.{pair_of};

use crate::trim::Trim;
use cow_cell::{Holder, Stock};
use cow_champ::{Collide, Entry};
use cow_item::{Equivalent, Item, Key};
use cow_model::NoMemory;
use std::alloc::Global;

impl<K: Key<Q>, V: Item<Q>, Q: Stock> Trim<K, V, Q> for Collide<K, V> {
    fn cut_in<E: Equivalent<K, Q>>(
        &mut self,
        alloc: Global,
        hash: u32,
        key: &E,
        h: &mut Holder<Q>,
    ) -> Result<(K, V), NoMemory> {
        match place_of(&self.entries, key) {
            Some(i) => {
                let Entry { key, value } = self.entries.remove(i);
                Ok((key, value))
            }
            None => unreachable!(),
        }
    }

    fn is_small(&self) -> bool {
        self.entries.len() <= 2
    }

    fn take_only(&mut self) -> Option<(K, V)> {
        if self.entries.len() != 1 {
            return None;
        }
        let Entry { key, value } = self.entries.remove(0);
        Some((key, value))
    }
}

/// Where the key stands; `None` exactly where it doesn't.
fn place_of<K: Key<Q>, V: Item<Q>, E: Equivalent<K, Q>, Q: Stock>(
    row: &Vec<Entry<K, V>>,
    key: &E,
) -> Option<usize>
    ensures within { IfSome result (λ i. i < length row.now.items) }
    ensures here { IfSome result (λ i. (x : _)
        → is_one (K.plain (slice_index_or row.now.items i x).key) (E.sought key.now) ≡ true) }
    ensures value { IfSome result (λ i. (x : _)
        → get (E.sought key.now) (map (pair_of K.plain V.plain) row.now.items)
        ≡ Some (V.plain (slice_index_or row.now.items i x).value)) }
    ensures absent { IfNone result
        (get (E.sought key.now) (map (pair_of K.plain V.plain) row.now.items) ≡ None) }
{
    for i in 0..row.len() {
        if key.stands_for(&row[i].key) {
            return Some(i);
        }
    }
    None
}
