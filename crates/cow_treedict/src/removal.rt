// The call of a tree dictionary by which a pair goes.
ghost use Rattle.std.specs.Prelude.{◌≡◌, ◌+◌, ◌*◌, ◌≤◌, length, IfOk, OnOk, OnErr, option_map, false};
ghost use Rattle.cow_champ.specs.Spending.{Spends, Copies, put_need};
ghost use Rattle.cow_dict.specs.Dictionaries.{has, without};
ghost use Rattle.cow_members.specs.Sets.{ChangesTo, Untouched};
ghost use Rattle.cow_model.specs.Flat.{need, Stays};
ghost use Rattle.cow_model.specs.Pairs.{value_in};
ghost use Rattle.cow_treedict.specs.Trees.{on_path};

use crate::dictionary::TreeDictionary;
use cow_cell::{Holder, Stock};
use cow_item::{Equivalent, Item, Key};
use cow_model::NoMemory;
use cow_trim::{Cut, Trim};

impl<K: Key<Q>, V: Item<Q>, Q: Stock, C: Trim<K, V, Q>> TreeDictionary<K, V, Q, C> {
    /// The value under `k`, or under the key that it stands for, taken out: Swift's `removeValue(forKey:)`. `None`
    /// exactly where there was none, and then nothing changes. The key that was there ends. Takes memory for the nodes
    /// of the path that are copied, and where a pair moves up to a node nearer to the root.
    pub fn remove<E: Equivalent<K, Q>>(
        &mut self,
        k: &E,
        h: &mut Holder<Q>,
    ) -> Result<Option<V>, NoMemory>
        requires spare { need (length self.old.value) ≤ h.old.spare }
        ensures ok { OnOk result (ChangesTo (without (E.sought k.now) self.old.value) self.old self.new) }
        ensures old { IfOk result
            (λ o. option_map V.plain o ≡ value_in (E.sought k.now) self.old.value) }
        ensures absent { has (E.sought k.now) self.old.value ≡ false
            → Untouched result self.old self.new h.old h.new }
        ensures refused { OnErr result (Stays self.old self.new) }
        ensures spent { Spends (put_need 0 (length self.old.value))
            ((K.WEIGHT + V.WEIGHT) * length self.old.value) h.old h.new }
        ensures path { Copies (K.WEIGHT + V.WEIGHT)
            (on_path K.hash_of (E.sought k.now) self.old.value) h.old h.new }
    {
        let hash = k.sought_hash();
        let answer = C::cut(&mut self.root, self.alloc, hash, k, h)?;
        match answer {
            Cut::Absent => Ok(None),
            Cut::Gone { gone } => {
                self.count -= 1;
                let (key, value) = gone;
                key.end(h);
                Ok(Some(value))
            }
            Cut::One { .. } => unreachable!(),
        }
    }
}
