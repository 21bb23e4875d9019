// The type of a trie's root.
use cow_champ::{Branch, Collide};

/// The root node of a tree set: seven levels of branches over collision nodes. A function that names it costs the check
/// the more, the more it does; so whatever works on trees is generic in the root's type (`cow_levels::Task`).
pub type Tree<K, Q> = Branch<K, (), Lower<K, Q>, Q, 0>;

type Lower<K, Q> = Branch<K, (), Branch<K, (), Lowest<K, Q>, Q, 2>, Q, 1>;

type Lowest<K, Q> = Branch<
    K,
    (),
    Branch<K, (), Branch<K, (), Branch<K, (), Collide<K, ()>, Q, 6>, Q, 5>, Q, 4>,
    Q,
    3,
>;
