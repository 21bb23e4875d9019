ghost use Rattle.std.specs.Prelude.{◌≡◌, ◌≤◌, true, false};
ghost use Rattle.cow_cell.specs.Opens.{Opens};
ghost use Rattle.tests_storage.specs.Parts.{plain_of_part, name_of, part_hash};
ghost use Rattle.cow_model.proofs.Hashes.{fnv_fits};
ghost use Rattle.cow_model.specs.declared.plain.Literal.TheVariants.{Int};
ghost use Rattle.std.proofs.Common.{rules};

use cow_cell::{Counted, Holder, Opening, Stock};
use cow_item::{Atom, Item, Key, Text};
use cow_model::{Bytes, Literal};
use std::alloc::Global;
use std::cmp::Ordering;
use std::marker::Brand;
use std::sync::Arc;
use std::sync::atomic::AtomicU64;
use std::sync::atomic::Ordering::SeqCst;
use std::test::Fail;

const WHOLE: u64 = 0x4000_0000_0000_0000;

/// A user's own item and key: two numbers and a text.
#[derive(Drop)]
struct Part<Q: Stock> {
    size: u32,
    colour: u32,
    name: Text<Q>,
}

impl<Q: Stock> Item<Q> for Part<Q> {
    const WEIGHT: u64 = 1;

    ghost WEIGHT = { 1 };

    ghost plain = { λ p. plain_of_part p.size p.colour p.name.value };

    ghost IsSettled = { λ p. p.name.alone ≡ false };

    ghost is_counted = { λ _. true };

    fn twin(&self, h: &mut Holder<Q>) -> Self {
        Part {
            size: self.size,
            colour: self.colour,
            name: self.name.twin(h),
        }
    }

    fn settle(&mut self) {
        self.name.settle();
    }

    fn end(self, h: &mut Holder<Q>) {
        let Part {
            size: _,
            colour: _,
            name,
        } = self;
        name.end(h);
    }

    ghost weighs_little = { Prim.search rules };
}

impl<Q: Stock> Key<Q> for Part<Q> {
    ghost hash_of = { part_hash };

    fn hash(&self) -> u32 {
        self.name.hash()
    }

    fn same(&self, other: &Self) -> bool {
        self.size == other.size && self.colour == other.colour && self.name.same(&other.name)
    }

    fn order(&self, other: &Self) -> Ordering {
        match self.size.cmp(&other.size) {
            Ordering::Equal => match self.colour.cmp(&other.colour) {
                Ordering::Equal => self.name.order(&other.name),
                unlike => unlike,
            },
            unlike => unlike,
        }
    }

    ghost hash_fits = { λ part. fnv_fits (name_of part) };
}

/// A copy of a key of any kind is the same key, and both give their units back.
fn copied_key<T: Key<Q>, Q: Stock>(mut key: T, h: &mut Holder<Q>) -> (bool, Ordering, bool)
    requires { 1 ≤ h.old.spare }
{
    key.settle();
    let copy = key.copy(h);
    let found = (key.same(&copy), key.order(&copy), key.hash() == copy.hash());
    copy.end(h);
    key.end(h);
    found
}

fn part_copied<Q: Stock>(
    alloc: Global,
    opening: Opening,
) -> Option<((bool, Ordering, bool), u64, u64)>
    requires { Opens Q.Stock opening }
{
    let mut h = Holder::<Q>::fresh(opening);
    let name = Text::new(alloc, b"bolt", &mut h).ok()?;
    let part = Part {
        size: 8,
        colour: 3,
        name,
    };
    let found = copied_key(part, &mut h);
    Some((found, h.copied(), h.spare()))
}

#[test]
fn a_part_is_an_item_and_a_key(rt: HostRuntime) -> Result<(), Fail> {
    let found = part_copied::<Brand>(rt.alloc(), Opening::new());
    assert_eq!(rt; found, Some(((true, Ordering::Equal, true), 1, WHOLE)));
    Ok(())
}

#[test]
fn integers_hash_by_their_halves(rt: HostRuntime) -> Result<(), Fail> {
    for (x, want) in [
        (0i64, 0),
        (-1, 0),
        (4_294_967_297, 0),
        (32, 32),
        (-2, 1),
        (i64::MIN, 2_147_483_648),
    ] {
        assert_eq!(rt; Key::<Brand>::hash(&x), want, "at {x}");
    }
    Ok(())
}

fn text_hash<Q: Stock>(alloc: Global, opening: Opening, bytes: &[u8]) -> Option<u32>
    requires { Opens Q.Stock opening }
{
    if bytes.len() > 255 {
        return None;
    }
    let mut h = Holder::<Q>::fresh(opening);
    let text = Text::new(alloc, bytes, &mut h).ok()?;
    let hash = text.hash();
    text.end(&mut h);
    Some(hash)
}

// The offset basis, four of the published vectors of FNV-1a, and one worked out by hand from its definition.
#[test]
fn texts_hash_by_fnv_1a(rt: HostRuntime) -> Result<(), Fail> {
    for (text, want) in [
        ("", 2_166_136_261),
        ("a", 0xe40c_292c),
        ("b", 0xe70c_2de5),
        ("foo", 0xa9f3_7ed7),
        ("foobar", 0xbf9c_f968),
        ("nut", 628_261_352),
    ] {
        let found = text_hash::<Brand>(rt.alloc(), Opening::new(), text.as_bytes());
        assert_eq!(rt; found, Some(want), "at {text}");
    }
    Ok(())
}

fn orders<Q: Stock>(alloc: Global, opening: Opening) -> Option<[Ordering; 6]>
    requires { Opens Q.Stock opening }
{
    let mut h = Holder::<Q>::fresh(opening);
    let small = Atom::<Q>::Int(-8);
    let large = Atom::<Q>::Int(7);
    let empty = Atom::Text(Text::new(alloc, b"", &mut h).ok()?);
    let short = Atom::Text(Text::new(alloc, b"ab", &mut h).ok()?);
    let long = Atom::Text(Text::new(alloc, b"abc", &mut h).ok()?);
    let last = Atom::Text(Text::new(alloc, b"b", &mut h).ok()?);
    Some([
        small.order(&large),
        large.order(&empty),
        empty.order(&short),
        short.order(&long),
        long.order(&last),
        last.order(&small),
    ])
}

#[test]
fn integers_precede_texts_and_prefixes_longer_texts(rt: HostRuntime) -> Result<(), Fail> {
    let less = Ordering::Less;
    let found = orders::<Brand>(rt.alloc(), Opening::new());
    assert_eq!(rt;
        found,
        Some([less, less, less, less, less, Ordering::Greater])
    );
    Ok(())
}

/// Spare and copied while two atoms share a text, what the second shows once the first has ended, and spare
/// once both have.
fn shared_text<Q: Stock>(alloc: Global, opening: Opening) -> Option<(u64, u64, bool, u64)>
    requires { Opens Q.Stock opening }
{
    let mut h = Holder::<Q>::fresh(opening);
    let mut first = Atom::Text(Text::new(alloc, b"nut", &mut h).ok()?);
    first.settle();
    let second = first.copy(&mut h);
    let (spare, copied) = (h.spare(), h.copied());
    first.end(&mut h);
    let shown = match &second {
        Atom::Int(_) => false,
        Atom::Text(text) => text.bytes() == b"nut".as_slice(),
    };
    second.end(&mut h);
    Some((spare, copied, shown, h.spare()))
}

#[test]
fn two_atoms_share_a_text(rt: HostRuntime) -> Result<(), Fail> {
    let found = shared_text::<Brand>(rt.alloc(), Opening::new());
    assert_eq!(rt; found, Some((WHOLE - 2, 1, true, WHOLE)));
    Ok(())
}

/// A number that counts its drops.
struct Dropped {
    number: i64,
    drops: Arc<AtomicU64>,
}

impl Drop for Dropped {
    fn drop(self) {
        let Dropped { number: _, drops } = self;
        drops.fetch_add(1, SeqCst);
    }
}

/// A user's own item: one handle of such a number, as a text is one of its bytes.
#[derive(Drop)]
struct Shared<Q: Stock> {
    cell: Counted<Dropped, Q>,
}

impl<Q: Stock> Item<Q> for Shared<Q> {
    const WEIGHT: u64 = 1;

    ghost WEIGHT = { 1 };

    ghost plain = { λ s. Int s.cell.value.number };

    ghost IsSettled = { λ s. s.cell.alone ≡ false };

    ghost is_counted = { λ _. true };

    fn twin(&self, h: &mut Holder<Q>) -> Self {
        Shared {
            cell: self.cell.share_settled(h),
        }
    }

    fn settle(&mut self) {
        self.cell.settle();
    }

    fn end(self, h: &mut Holder<Q>) {
        let Shared { cell } = self;
        let _last = cell.end(h);
    }

    ghost weighs_little = { Prim.search rules };
}

/// The drops counted, and what the second item shows, once the first of two that share a block has ended; the
/// drops and the spare once both have.
fn shared_block<Q: Stock>(alloc: Global, opening: Opening) -> Option<(u64, i64, u64, u64)>
    requires { Opens Q.Stock opening }
{
    let mut h = Holder::<Q>::fresh(opening);
    let drops = Arc::new(alloc, AtomicU64::new(0)).ok()?;
    let number = Dropped {
        number: 7,
        drops: drops.clone().ok()?,
    };
    let cell = Counted::new(alloc, number, &mut h).ok()?;
    let mut first = Shared { cell };
    first.settle();
    let second = first.copy(&mut h);
    first.end(&mut h);
    let early = drops.load(SeqCst);
    let shown = second.cell.get().number;
    second.end(&mut h);
    Some((early, shown, drops.load(SeqCst), h.spare()))
}

#[test]
fn two_items_that_share_a_value_drop_it_once(rt: HostRuntime) -> Result<(), Fail> {
    let found = shared_block::<Brand>(rt.alloc(), Opening::new());
    assert_eq!(rt; found, Some((0, 7, 1, WHOLE)));
    Ok(())
}

/// Whether the atom shows the literal's bytes, and spare and copied with it.
fn read_text<Q: Stock>(alloc: Global, opening: Opening) -> Option<(bool, u64, u64)>
    requires { Opens Q.Stock opening }
{
    let mut h = Holder::<Q>::fresh(opening);
    let bytes = Vec::from_slice(alloc, b"gear").ok()?;
    let literal = Literal::Text(Bytes::from_vec(bytes));
    let shown = match Atom::<Q>::read(alloc, &literal, &mut h).ok()? {
        Atom::Int(_) => false,
        Atom::Text(text) => text.bytes() == b"gear".as_slice(),
    };
    Some((shown, h.spare(), h.copied()))
}

#[test]
fn a_literal_is_read_as_an_atom(rt: HostRuntime) -> Result<(), Fail> {
    let found = read_text::<Brand>(rt.alloc(), Opening::new());
    assert_eq!(rt; found, Some((true, WHOLE - 1, 1)));
    Ok(())
}
