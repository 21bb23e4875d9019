//! What no clause says: that a table is made and grows, and that its twin is.
use cow_table::Table;
use std::alloc::Global;
use std::test::Fail;

/// Row `library-calls`: a table of a pair, and its twin, which loses the pair and takes it again.
fn twin(alloc: Global) -> Option<()> {
    let mut table = Table::new(alloc).ok()?;
    table.add(9, 0);
    let mut twin = table.twin().ok()?;
    twin.remove_at(9, 0);
    twin.add(9, 0);
    Some(())
}

#[test]
fn a_table_has_a_twin(rt: HostRuntime) -> Result<(), Fail> {
    assert_eq!(rt; twin(rt.alloc()), Some(()));
    Ok(())
}

/// A table is asked for room for a thousand pairs, and then for a twin with room for two thousand.
fn grown(alloc: Global) -> Option<()> {
    let mut table = Table::new(alloc).ok()?;
    table.reserve(1000).ok()?;
    let _wide = table.twin_with_room(2000).ok()?;
    Some(())
}

#[test]
fn a_table_grows(rt: HostRuntime) -> Result<(), Fail> {
    assert_eq!(rt; grown(rt.alloc()), Some(()));
    Ok(())
}
