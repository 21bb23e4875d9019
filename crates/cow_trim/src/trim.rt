ghost use Rattle.std.specs.Prelude.{◌≡◌, ◌≢◌, ◌≤◌, ◌+◌, ◌-◌, ◌*◌, ◌∷◌, [], Some, IfOk, IfSome, IfNone, OnOk, OnErr, IsOk, None, is_some, option_map, nat_le, true};
ghost use Rattle.cow_model.specs.Canon.{pairs, canon, is_one, IsCanonical, AgreeBelow, without};
ghost use Rattle.cow_champ.specs.Words.{size, held};
ghost use Rattle.cow_champ.specs.Spending.{unshared, put_need, Puts, PutsIn, on_path, Copies};
ghost use Rattle.cow_trim.specs.Removal.{plain_pair, gone_of, left_of, gives_up, without_key};

use cow_cell::{Counted, Holder, Stock};
use cow_champ::Level;
use cow_item::{Equivalent, Item, Key};
use cow_model::NoMemory;
use std::alloc::Global;

/// What became of a key that was to go.
#[derive(Drop)]
pub enum Cut<K, V> {
    /// It wasn't there, and nothing changed.
    Absent,
    /// It went with its value.
    Gone { gone: (K, V) },
    /// It went, and one other pair was left, which the parent takes: the node is empty.
    One { gone: (K, V), left: (K, V) },
}

/// One level of a trie from which keys are removed.
pub trait Trim<K: Key<Q>, V: Item<Q>, Q: Stock>: Level<K, V, Q> {
    /// A key that is there goes, of a node that no other handle shows. The spare for a copy of the node is spent already.
    /// Takes memory for the path below; refused, the shape is as it was.
    fn cut_in<E: Equivalent<K, Q>>(
        &mut self,
        alloc: Global,
        hash: u32,
        key: &E,
        h: &mut Holder<Q>,
    ) -> Result<(K, V), NoMemory>
        requires stacked { Self.Stacked }
        requires whole { Self.IsWhole self.old }
        requires hash { hash ≡ K.hash_of (E.sought key.now) }
        requires agree { AgreeBelow K.hash_of Self.LEVEL hash (pairs (Self.shape self.old)) }
        requires canonical { IsCanonical K.hash_of (Self.shape self.old) Self.LEVEL }
        requires there { is_some (held (E.sought key.now) (Self.shape self.old)) ≡ true }
        requires spare { put_need Self.LEVEL (size (Self.shape self.old))
            ≤ h.old.spare + unshared (Self.own self.old) }
        ensures whole { Self.IsWhole self.new }
        ensures key { IfOk result (λ p. is_one (K.plain p.0) (E.sought key.now) ≡ true) }
        ensures value { IfOk result
            (λ p. Some (V.plain p.1) ≡ held (E.sought key.now) (Self.shape self.old)) }
        ensures new { OnOk result (Self.shape self.new
            ≡ canon K.hash_of (without (E.sought key.now) (pairs (Self.shape self.old))) Self.LEVEL) }
        ensures kept { OnErr result (Self.shape self.new ≡ Self.shape self.old) }
        ensures spent { PutsIn (K.WEIGHT + V.WEIGHT) Self.LEVEL
            (Self.shape self.old) (Self.own self.old) h.old h.new }
        ensures path { Copies (K.WEIGHT + V.WEIGHT)
            (on_path K.hash_of Self.LEVEL hash (pairs (Self.shape self.old))
            - (Self.own self.old).held) h.old h.new };

    /// Whether no more than two pairs may be all that the node has, by its own rows. One look.
    fn is_small(&self) -> bool
        requires stacked { Self.Stacked }
        requires whole { Self.IsWhole self.now }
        ensures { result ≡ nat_le ((Self.own self.now).held + 2 * (Self.own self.now).linked) 2 };

    /// The only pair of the node, taken out; `None` where it has none or several, and then nothing changes.
    fn take_only(&mut self) -> Option<(K, V)>
        requires stacked { Self.Stacked }
        requires whole { Self.IsWhole self.old }
        requires canonical { IsCanonical K.hash_of (Self.shape self.old) Self.LEVEL }
        ensures whole { Self.IsWhole self.new }
        ensures one { IfSome result
            (λ p. pairs (Self.shape self.old) ≡ plain_pair K.plain V.plain p ∷ []) }
        ensures empty { IfSome result (λ p. Self.IsEmpty self.new) }
        ensures several { IfNone result (size (Self.shape self.old) ≢ 1) }
        ensures same { IfNone result (self.new ≡ self.old) };

    /// A key that is there goes, with its value; behind it stands the other pair where one is left for the parent.
    final fn cut_held<E: Equivalent<K, Q>>(
        node: &mut Counted<Self, Q>,
        alloc: Global,
        hash: u32,
        key: &E,
        h: &mut Holder<Q>,
    ) -> Result<((K, V), Option<(K, V)>), NoMemory>
        requires stacked { Self.Stacked }
        requires whole { Self.IsWhole node.old.value }
        requires hash { hash ≡ K.hash_of (E.sought key.now) }
        requires agree { AgreeBelow K.hash_of Self.LEVEL hash (pairs (Self.shape node.old.value)) }
        requires canonical { IsCanonical K.hash_of (Self.shape node.old.value) Self.LEVEL }
        requires there { is_some (held (E.sought key.now) (Self.shape node.old.value)) ≡ true }
        requires spare { put_need Self.LEVEL (size (Self.shape node.old.value)) ≤ h.old.spare }
        ensures whole { Self.IsWhole node.new.value }
        ensures key { IfOk result (λ r. is_one (K.plain r.0.0) (E.sought key.now) ≡ true) }
        ensures value { IfOk result
            (λ r. Some (V.plain r.0.1) ≡ held (E.sought key.now) (Self.shape node.old.value)) }
        ensures one { IfOk result (λ r. is_some r.1
            ≡ gives_up Self.LEVEL (E.sought key.now) (Self.shape node.old.value)) }
        ensures left { IfOk result (λ r. IfSome r.1
            (λ p. without (E.sought key.now) (pairs (Self.shape node.old.value))
            ≡ plain_pair K.plain V.plain p ∷ [])) }
        ensures empty { IfOk result (λ r. IfSome r.1 (λ p. Self.IsEmpty node.new.value)) }
        ensures new { IfOk result (λ r. IfNone r.1 (Self.shape node.new.value
            ≡ without_key K.hash_of Self.LEVEL (E.sought key.now) (Self.shape node.old.value))) }
        ensures kept { OnErr result (Self.shape node.new.value ≡ Self.shape node.old.value) }
        ensures alone { OnOk result (node.new.alone ≡ true) }
        ensures stays { node.old.alone ≡ true → node.new.alone ≡ true }
        ensures spent { Puts (K.WEIGHT + V.WEIGHT) Self.LEVEL (Self.shape node.old.value) h.old h.new }
        ensures path { Copies (K.WEIGHT + V.WEIGHT)
            (on_path K.hash_of Self.LEVEL hash (pairs (Self.shape node.old.value))) h.old h.new }
    {
        Self::make_sole(node, alloc, h)?;
        let n = node.only();
        let gone = n.cut_in(alloc, hash, key, h)?;
        if <Self as Level<K, V, Q>>::LEVEL == 0 {
            return Ok((gone, None));
        }
        let left = n.take_only();
        Ok((gone, left))
    }

    /// A key goes, with its value. Where one other pair is left, and the node has a parent, that pair is handed out too,
    /// and the node is empty; else the node has the canonical shape of the pairs left. `Absent` exactly where the key
    /// isn't there, and then nothing changes: it is looked up before anything is copied.
    ///
    /// Nodes on the path are changed as `put` changes them. All memory is taken before anything that is shown changes;
    /// refused, the shape is as it was.
    final fn cut<E: Equivalent<K, Q>>(
        node: &mut Counted<Self, Q>,
        alloc: Global,
        hash: u32,
        key: &E,
        h: &mut Holder<Q>,
    ) -> Result<Cut<K, V>, NoMemory>
        requires stacked { Self.Stacked }
        requires whole { Self.IsWhole node.old.value }
        requires hash { hash ≡ K.hash_of (E.sought key.now) }
        requires agree { AgreeBelow K.hash_of Self.LEVEL hash (pairs (Self.shape node.old.value)) }
        requires canonical { IsCanonical K.hash_of (Self.shape node.old.value) Self.LEVEL }
        requires spare { put_need Self.LEVEL (size (Self.shape node.old.value)) ≤ h.old.spare }
        ensures whole { Self.IsWhole node.new.value }
        ensures gone { IfOk result (λ c. option_map (λ p. V.plain p.1) (gone_of c)
            ≡ held (E.sought key.now) (Self.shape node.old.value)) }
        ensures key { IfOk result
            (λ c. IfSome (gone_of c) (λ p. is_one (K.plain p.0) (E.sought key.now) ≡ true)) }
        ensures absent { held (E.sought key.now) (Self.shape node.old.value) ≡ None
            → IsOk result × (node.new ≡ node.old) × (h.new ≡ h.old) }
        ensures one { IfOk result (λ c. is_some (left_of c)
            ≡ gives_up Self.LEVEL (E.sought key.now) (Self.shape node.old.value)) }
        ensures left { IfOk result (λ c. IfSome (left_of c)
            (λ p. without (E.sought key.now) (pairs (Self.shape node.old.value))
            ≡ plain_pair K.plain V.plain p ∷ [])) }
        ensures empty { IfOk result (λ c. IfSome (left_of c) (λ p. Self.IsEmpty node.new.value)) }
        ensures new { IfOk result (λ c. IfNone (left_of c) (Self.shape node.new.value
            ≡ without_key K.hash_of Self.LEVEL (E.sought key.now) (Self.shape node.old.value))) }
        ensures canonical { IfOk result (λ c. IfNone (left_of c)
            (IsCanonical K.hash_of (Self.shape node.new.value) Self.LEVEL)) }
        ensures kept { OnErr result (Self.shape node.new.value ≡ Self.shape node.old.value) }
        ensures alone { IfOk result (λ c. IfSome (gone_of c) (λ p. node.new.alone ≡ true)) }
        ensures stays { node.old.alone ≡ true → node.new.alone ≡ true }
        ensures spent { Puts (K.WEIGHT + V.WEIGHT) Self.LEVEL (Self.shape node.old.value) h.old h.new }
        ensures path { Copies (K.WEIGHT + V.WEIGHT)
            (on_path K.hash_of Self.LEVEL hash (pairs (Self.shape node.old.value))) h.old h.new }
    {
        if node.get().find(hash, key).is_none() {
            return Ok(Cut::Absent);
        }
        let (gone, left) = Self::cut_held(node, alloc, hash, key, h)?;
        match left {
            None => Ok(Cut::Gone { gone }),
            Some(left) => Ok(Cut::One { gone, left }),
        }
    }
}
