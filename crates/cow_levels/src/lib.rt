//! Tries of seven branches over a collision node: the levels of `cow_champ`, put on one another.
//!
//! Whatever works on tries is generic in the root's type. A root's type says itself that it is one ([`Root`]), so that
//! types and traits above can rest on it. There is no invariant. Where the type is to be made, a level is put on at a
//! time: a function that names a stack of levels costs the check the more, the more levels it names, so each here names
//! one level over a level that it doesn't know. The layer above makes a [`Task`] of what it does, and runs it by
//! [`over_levels`].
#![tactic(auto)]

mod roots;

ghost use Rattle.std.specs.Prelude.{◌≡◌, ℕ};

use cow_cell::Stock;
use cow_champ::{Branch, Collide};
use cow_item::{Item, Key};
use cow_trim::Trim;
pub use roots::{Root, Stands};

/// What is done with tries whose root is of any level type, of which keys can be removed too. `over_levels` runs it with
/// seven branches over a collision node; no trie comes in or out, so it makes its own.
pub trait Task<K: Key<Q>, V: Item<Q>, Q: Stock>: Sized + Drop {
    type Out;

    /// What it asks.
    ghost Takes: { Self → Type 0 };

    /// What it answers.
    ghost Gives: { Self → Self.Out → Type 0 };

    fn run<C: Trim<K, V, Q> + Send + Sync>(self) -> Self::Out
        requires root { C.LEVEL ≡ 0 }
        requires stacked { C.Stacked }
        requires takes { Takes self }
        ensures { Gives self result };
}

/// Runs a task over tries of seven levels of branches.
pub fn over_levels<
    K: Key<Q> + Send + Sync,
    V: Item<Q> + Send + Sync,
    Q: Stock + Send + Sync,
    T: Task<K, V, Q>,
>(task: T) -> T::Out
    requires { T.Takes task }
    ensures { T.Gives task result }
{
    over_6::<K, V, Q, Collide<K, V>, T>(task)
}

/// With level 6 over a level below it.
fn over_6<
    K: Key<Q> + Send + Sync,
    V: Item<Q> + Send + Sync,
    Q: Stock + Send + Sync,
    C: Stands<K, V, Q, 7> + Send + Sync,
    T: Task<K, V, Q>,
>(task: T) -> T::Out
    requires { T.Takes task }
    ensures { T.Gives task result }
{
    over_5::<K, V, Q, Branch<K, V, C, Q, 6>, T>(task)
}

/// With level 5 over a level below it.
fn over_5<
    K: Key<Q> + Send + Sync,
    V: Item<Q> + Send + Sync,
    Q: Stock + Send + Sync,
    C: Stands<K, V, Q, 6> + Send + Sync,
    T: Task<K, V, Q>,
>(task: T) -> T::Out
    requires { T.Takes task }
    ensures { T.Gives task result }
{
    over_4::<K, V, Q, Branch<K, V, C, Q, 5>, T>(task)
}

/// With level 4 over a level below it.
fn over_4<
    K: Key<Q> + Send + Sync,
    V: Item<Q> + Send + Sync,
    Q: Stock + Send + Sync,
    C: Stands<K, V, Q, 5> + Send + Sync,
    T: Task<K, V, Q>,
>(task: T) -> T::Out
    requires { T.Takes task }
    ensures { T.Gives task result }
{
    over_3::<K, V, Q, Branch<K, V, C, Q, 4>, T>(task)
}

/// With level 3 over a level below it.
fn over_3<
    K: Key<Q> + Send + Sync,
    V: Item<Q> + Send + Sync,
    Q: Stock + Send + Sync,
    C: Stands<K, V, Q, 4> + Send + Sync,
    T: Task<K, V, Q>,
>(task: T) -> T::Out
    requires { T.Takes task }
    ensures { T.Gives task result }
{
    over_2::<K, V, Q, Branch<K, V, C, Q, 3>, T>(task)
}

/// With level 2 over a level below it.
fn over_2<
    K: Key<Q> + Send + Sync,
    V: Item<Q> + Send + Sync,
    Q: Stock + Send + Sync,
    C: Stands<K, V, Q, 3> + Send + Sync,
    T: Task<K, V, Q>,
>(task: T) -> T::Out
    requires { T.Takes task }
    ensures { T.Gives task result }
{
    over_1::<K, V, Q, Branch<K, V, C, Q, 2>, T>(task)
}

/// With level 1 over a level below it.
fn over_1<
    K: Key<Q> + Send + Sync,
    V: Item<Q> + Send + Sync,
    Q: Stock + Send + Sync,
    C: Stands<K, V, Q, 2> + Send + Sync,
    T: Task<K, V, Q>,
>(task: T) -> T::Out
    requires { T.Takes task }
    ensures { T.Gives task result }
{
    over_0::<K, V, Q, Branch<K, V, C, Q, 1>, T>(task)
}

/// With level 0 over a level below it.
fn over_0<
    K: Key<Q> + Send + Sync,
    V: Item<Q> + Send + Sync,
    Q: Stock + Send + Sync,
    C: Stands<K, V, Q, 1> + Send + Sync,
    T: Task<K, V, Q>,
>(task: T) -> T::Out
    requires { T.Takes task }
    ensures { T.Gives task result }
{
    over_root::<K, V, Q, Branch<K, V, C, Q, 0>, T>(task)
}

/// Over a root.
fn over_root<K: Key<Q>, V: Item<Q>, Q: Stock, C: Root<K, V, Q> + Send + Sync, T: Task<K, V, Q>>(
    task: T,
) -> T::Out
    requires { T.Takes task }
    ensures { T.Gives task result }
{
    task.run::<C>()
}
