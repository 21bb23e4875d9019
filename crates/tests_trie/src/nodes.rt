//! Of how many nodes a trie is, and how many of them a change of a copy makes anew. Integers have no units, so each unit that
//! a dictionary has out of its holder is the handle of one node.
ghost use Rattle.std.specs.Prelude.{◌≡◌, ◌≤◌, ◌^◌};
ghost use Rattle.cow_cell.specs.Opens.{Opens};

use crate::dictionary::{put, put_all};
use cow_cell::{Holder, Opening, Stock};
use cow_levels::{Task, over_levels};
use cow_treedict::TreeDictionary;
use cow_trim::Trim;
use std::alloc::Global;
use std::marker::Brand;
use std::test::Fail;

/// The nodes of a dictionary, the nodes that a copy has for itself after a change, and the items that this change copied.
type Nodes = Option<(u64, u64, u64)>;

/// Keys that are put in turn, of which the first is then changed in a copy.
#[derive(Drop)]
struct Put<'a> {
    alloc: Global,
    opening: Opening,
    keys: &'a [i64],
}

impl<'a, Q: Stock> Task<i64, i64, Q> for Put<'a> {
    type Out = Nodes;

    ghost use Rattle.std.specs.Prelude.{⊤};
    ghost use Rattle.cow_cell.specs.Opens.{Opens};

    ghost Takes = { λ t. Opens Q.Stock t.opening };

    ghost Gives = { λ t r. ⊤ };

    fn run<C: Trim<i64, i64, Q> + Send + Sync>(self) -> Nodes {
        let Put {
            alloc,
            opening,
            keys,
        } = self;
        let mut h = Holder::<Q>::fresh(opening);
        let mut t = TreeDictionary::<i64, i64, Q, C>::new(alloc, &mut h).ok()?;
        let answer = nodes_of(&mut t, keys, &mut h);
        t.end(&mut h);
        answer
    }
}

/// How many units are out of the holder.
fn out<Q: Stock>(h: &Holder<Q>) -> u64 {
    0x4000_0000_0000_0000u64.wrapping_sub(h.spare())
}

/// Puts the keys, and changes the first in a copy.
fn nodes_of<Q: Stock, C: Trim<i64, i64, Q>>(
    t: &mut TreeDictionary<i64, i64, Q, C>,
    keys: &[i64],
    h: &mut Holder<Q>,
) -> Nodes {
    put_all(t, keys, h)?;
    let nodes = out(h);
    if h.spare() == 0 || keys.len() == 0 {
        return None;
    }
    let mut u = t.copy(h);
    let changed = put(&mut u, keys[0], 50, h);
    let copied = h.copied();
    let own = out(h).wrapping_sub(nodes);
    u.end(h);
    changed?;
    Some((nodes, own, copied))
}

/// The same over seven levels.
fn nodes<Q: Stock + Send + Sync>(alloc: Global, opening: Opening, keys: &[i64]) -> Nodes
    requires { Opens Q.Stock opening }
{
    over_levels::<i64, i64, Q, Put>(Put {
        alloc,
        opening,
        keys,
    })
}

#[test]
fn two_keys_of_one_digit_leave_the_root_one_child_and_no_entry(
    rt: HostRuntime,
) -> Result<(), Fail> {
    // The root and a child, and of the two only the child has pairs that are copied.
    let found = nodes::<Brand>(rt.alloc(), Opening::new(), &[0, 32]);
    assert_eq!(rt; found, Some((2, 2, 4)));
    Ok(())
}

#[test]
fn a_change_of_a_copy_makes_seven_nodes_at_most_and_one_for_keys_of_one_hash(
    rt: HostRuntime,
) -> Result<(), Fail> {
    // The hashes differ in their last two bits alone.
    let deep = nodes::<Brand>(rt.alloc(), Opening::new(), &[0, 1_073_741_824]);
    assert_eq!(rt; deep, Some((7, 7, 4)));
    let collided = nodes::<Brand>(rt.alloc(), Opening::new(), &[0, -1, 4_294_967_297]);
    assert_eq!(rt; collided, Some((8, 8, 6)));
    Ok(())
}
