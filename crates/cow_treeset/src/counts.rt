// How many members another set would bring.
ghost use Rattle.std.specs.Prelude.{◌≡◌};
ghost use Rattle.cow_members.specs.Ascents.{Ascends};
ghost use Rattle.cow_members.specs.Sets.{lacking};

use crate::set::TreeSet;
use cow_cell::Stock;
use cow_champ::Level;
use cow_item::Key;

impl<K: Key<Q>, Q: Stock, C: Level<K, (), Q>> TreeSet<K, Q, C> {
    /// How many members of `other` aren't members: by so many `union` grows it. One look-up a member of `other`.
    pub fn lacking(&self, other: &TreeSet<K, Q, C>) -> usize
        ensures value { result ≡ lacking self.now.value other.now.value }
        ensures distinct { Ascends self.now.value × Ascends other.now.value }
    {
        let _ = &self.root;
        other.root.get().tally(&|k, _| self.stays(k, false))
    }
}
