// The type of a trie's root.
use cow_champ::{Branch, Collide};

/// The root node of a tree: seven levels of branches over collision nodes. A function that names it costs the check the
/// more, the more it does; so whatever works on trees is generic in the root's type (`cow_levels::Task`).
pub type Tree<K, V, Q> = Branch<K, V, Lower<K, V, Q>, Q, 0>;

type Lower<K, V, Q> = Branch<K, V, Branch<K, V, Lowest<K, V, Q>, Q, 2>, Q, 1>;

type Lowest<K, V, Q> = Branch<
    K,
    V,
    Branch<K, V, Branch<K, V, Branch<K, V, Collide<K, V>, Q, 6>, Q, 5>, Q, 4>,
    Q,
    3,
>;
