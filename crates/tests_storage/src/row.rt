//! What no clause says: that a row drops what it holds.
use crate::drops::Dropped;
use cow_row::Row;
use std::sync::atomic::{AtomicU64, Ordering};
use std::test::Fail;

/// Of five items of a row one is taken out at each end; the others move to the first place and to a wider
/// buffer, and drop with the row.
#[test]
fn a_row_drops_each_item_once(rt: HostRuntime) -> Result<(), Fail> {
    let drops = AtomicU64::new(0);
    let mut row = Row::with_capacity(rt.alloc(), 4)?;
    row.push(Dropped { drops: &drops });
    row.push(Dropped { drops: &drops });
    row.push(Dropped { drops: &drops });
    row.push(Dropped { drops: &drops });
    drop(row.pop_front());
    drop(row.pop());
    assert_eq!(rt; drops.load(Ordering::SeqCst), 2);
    row.reserve(rt.alloc(), 9)?;
    row.push(Dropped { drops: &drops });
    assert_eq!(rt; drops.load(Ordering::SeqCst), 2);
    drop(row);
    assert_eq!(rt; drops.load(Ordering::SeqCst), 5);
    Ok(())
}
