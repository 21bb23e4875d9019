// Lists that are made of copies of others' elements.
ghost use Rattle.std.specs.Prelude.{◌≡◌, ◌++◌, ◌≤◌, ◌<◌, ◌-◌, length, take, drop, reverse, slice_set, IfOk, OnOk};
ghost use Rattle.std.specs.List as list;

use crate::copies::Whole;
use cow_model::NoMemory;
use sqlite_items::Items;
use std::alloc::Global;

/// Copies of the items behind those of a list.
pub fn extend<T: Whole>(alloc: Global, list: &mut Vec<T>, items: &[T]) -> Result<(), NoMemory>
    ensures { OnOk result (list.new.items ≡ list.old.items ++ items.now) }
{
    for item in items {
        list.push(item.whole(alloc)?)?;
    }
    Ok(())
}

/// The items, copied.
pub fn copied<T: Whole>(alloc: Global, items: &[T]) -> Result<Items<T>, NoMemory>
    ensures { IfOk result (λ made. made ≡ items.now) }
{
    let mut list = Vec::new(alloc);
    extend(alloc, &mut list, items)?;
    Ok(Items::from_vec(list))
}

/// The items of one list and then those of another.
pub fn joined<T: Whole>(alloc: Global, items: &[T], others: &[T]) -> Result<Items<T>, NoMemory>
    ensures { IfOk result (λ made. made ≡ items.now ++ others.now) }
{
    let mut list = Vec::new(alloc);
    extend(alloc, &mut list, items)?;
    extend(alloc, &mut list, others)?;
    Ok(Items::from_vec(list))
}

/// The items with one more at a place up to their end.
pub fn inserted<T: Whole>(
    alloc: Global,
    items: &[T],
    place: usize,
    item: &T,
) -> Result<Items<T>, NoMemory>
    requires { place ≤ length items.now }
    ensures { IfOk result (λ made. made ≡ list.insert items.now place item.now) }
{
    let mut list = Vec::new(alloc);
    extend(alloc, &mut list, &items[..place])?;
    list.push(item.whole(alloc)?)?;
    extend(alloc, &mut list, &items[place..])?;
    Ok(Items::from_vec(list))
}

/// The items without the one at a place.
pub fn removed<T: Whole>(alloc: Global, items: &[T], place: usize) -> Result<Items<T>, NoMemory>
    requires { place < length items.now }
    ensures { IfOk result (λ made. made ≡ list.remove items.now place) }
{
    let mut list = Vec::new(alloc);
    extend(alloc, &mut list, &items[..place])?;
    extend(alloc, &mut list, &items[place + 1..])?;
    Ok(Items::from_vec(list))
}

/// The items with another in the place of one.
pub fn replaced<T: Whole>(
    alloc: Global,
    items: &[T],
    place: usize,
    item: &T,
) -> Result<Items<T>, NoMemory>
    requires { place < length items.now }
    ensures { IfOk result (λ made. made ≡ slice_set items.now place item.now) }
{
    let mut list = Vec::new(alloc);
    extend(alloc, &mut list, items)?;
    list[place] = item.whole(alloc)?;
    Ok(Items::from_vec(list))
}

/// The items, of which two have changed places.
pub fn swapped<T: Whole>(
    alloc: Global,
    items: &[T],
    i: usize,
    j: usize,
) -> Result<Items<T>, NoMemory>
    requires first { i < length items.now }
    requires second { j < length items.now }
    ensures { IfOk result (λ made. made ≡ list.swap items.now i j) }
{
    let mut list = Vec::new(alloc);
    extend(alloc, &mut list, items)?;
    list.swap(i, j);
    Ok(Items::from_vec(list))
}

/// The items, the last first.
pub fn reversed<T: Whole>(alloc: Global, items: &[T]) -> Result<Items<T>, NoMemory>
    ensures { IfOk result (λ made. made ≡ reverse items.now) }
{
    let mut list = Vec::new(alloc);
    extend(alloc, &mut list, items)?;
    list.reverse();
    Ok(Items::from_vec(list))
}

/// The items from a place to an end.
pub fn part<T: Whole>(
    alloc: Global,
    items: &[T],
    place: usize,
    end: usize,
) -> Result<Items<T>, NoMemory>
    requires order { place ≤ end }
    requires within { end ≤ length items.now }
    ensures { IfOk result (λ made. made ≡ take (end - place) (drop place items.now)) }
{
    copied(alloc, &items[place..end])
}

/// The items with others in the place of a part.
pub fn spliced<T: Whole>(
    alloc: Global,
    items: &[T],
    place: usize,
    end: usize,
    others: &[T],
) -> Result<Items<T>, NoMemory>
    requires order { place ≤ end }
    requires within { end ≤ length items.now }
    ensures { IfOk result (λ made. made ≡ take place items.now ++ others.now ++ drop end items.now) }
{
    let mut list = Vec::new(alloc);
    extend(alloc, &mut list, &items[..place])?;
    extend(alloc, &mut list, others)?;
    extend(alloc, &mut list, &items[end..])?;
    Ok(Items::from_vec(list))
}
