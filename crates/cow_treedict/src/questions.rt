// What is asked of all keys or all pairs.
ghost use Rattle.std.specs.Prelude.{◌≡◌, Bool};
ghost use Rattle.std.specs.List.{list_all};
ghost use Rattle.cow_dict.specs.Dictionaries.{AnswersBy, holds};
ghost use Rattle.cow_dict.specs.Storages.{keys};
ghost use Rattle.cow_members.specs.Ascents.{Ascends};
ghost use Rattle.cow_members.specs.Sets.{lacking};
ghost use Rattle.cow_model.specs.declared.plain.Literal.{Literal};

use crate::dictionary::TreeDictionary;
use cow_cell::Stock;
use cow_champ::Level;
use cow_item::{Item, Key};

impl<K: Key<Q>, V: Item<Q>, Q: Stock, C: Level<K, V, Q>> TreeDictionary<K, V, Q, C> {
    /// How many keys of `other` aren't keys: by so many pairs `merge` grows it. One look-up a key of `other`.
    pub fn lacking(&self, other: &TreeDictionary<K, V, Q, C>) -> usize
        ensures value { result ≡ lacking (keys self.now.value) (keys other.now.value) }
        ensures distinct { Ascends (keys self.now.value) × Ascends (keys other.now.value) }
    {
        let _ = &self.root;
        other.root.get().tally(&|k, _| !self.contains_key(k))
    }

    /// Whether `test` answers true to each key: Swift's `keys.allSatisfy`. It answers by the plain key alone.
    pub fn all_keys<F: Fn(&K) -> bool>(&self, test: F) -> bool
        requires { F.IsAlwaysCallable test }
        ensures { (p : Literal → Bool) → AnswersBy (λ k. K.plain k.now) (F.post test) p
            → result ≡ list_all p (keys self.now.value) }
    {
        self.root.get().all(&|k, _| test(k))
    }
}

impl<K: Key<Q>, V: Key<Q>, Q: Stock, C: Level<K, V, Q>> TreeDictionary<K, V, Q, C> {
    /// Whether each pair of `other` is one of these. At most one look-up a key of `other`.
    pub fn includes(&self, other: &TreeDictionary<K, V, Q, C>) -> bool
        ensures value { result ≡ list_all (holds self.now.value) other.now.value }
        ensures distinct { Ascends (keys self.now.value) × Ascends (keys other.now.value) }
    {
        let _ = &self.root;
        other.root.get().all(&|k, v| self.has_pair(k, v))
    }
}
