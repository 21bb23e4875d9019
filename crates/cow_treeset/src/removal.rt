// The call of a tree set by which a member goes.
ghost use Rattle.std.specs.Prelude.{◌≡◌, ◌*◌, ◌≤◌, length, IfOk, OnOk, OnErr, option_map, false};
ghost use Rattle.cow_champ.specs.Spending.{Spends, Copies, put_need};
ghost use Rattle.cow_members.specs.Sets.{found, without, ChangesTo, Untouched};
ghost use Rattle.cow_model.specs.Flat.{Stays, need};
ghost use Rattle.cow_model.specs.Members.{member};
ghost use Rattle.cow_treeset.specs.TreeSets.{on_path};

use crate::set::TreeSet;
use cow_cell::{Holder, Stock};
use cow_item::{Equivalent, Key};
use cow_model::NoMemory;
use cow_trim::{Cut, Trim};

impl<K: Key<Q>, Q: Stock, C: Trim<K, (), Q>> TreeSet<K, Q, C> {
    /// The member that `k` stands for, taken out: Swift's `remove`. `None` exactly where there was none, and then nothing
    /// changes. Takes memory for the nodes of the path that are copied, and where a member moves up to a node nearer to
    /// the root; refused, the members are as they were.
    pub fn remove<E: Equivalent<K, Q>>(
        &mut self,
        k: &E,
        h: &mut Holder<Q>,
    ) -> Result<Option<K>, NoMemory>
        requires spare { need (length self.old.value) ≤ h.old.spare }
        ensures ok { OnOk result (ChangesTo (without (E.sought k.now) self.old.value) self.old self.new) }
        ensures old { IfOk result (λ o. option_map K.plain o ≡ found (E.sought k.now) self.old.value) }
        ensures absent { member (E.sought k.now) self.old.value ≡ false
            → Untouched result self.old self.new h.old h.new }
        ensures refused { OnErr result (Stays self.old self.new) }
        ensures spent { Spends (put_need 0 (length self.old.value))
            (K.WEIGHT * length self.old.value) h.old h.new }
        ensures path { Copies K.WEIGHT
            (on_path K.hash_of (E.sought k.now) self.old.value) h.old h.new }
    {
        let hash = k.sought_hash();
        let answer = C::cut(&mut self.root, self.alloc, hash, k, h)?;
        match answer {
            Cut::Absent => Ok(None),
            Cut::Gone { gone } => {
                self.count -= 1;
                let (key, _) = gone;
                Ok(Some(key))
            }
            Cut::One { .. } => unreachable!(),
        }
    }
}
