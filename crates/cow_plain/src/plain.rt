// Plain values: how large they are, and when two are one.
ghost use Rattle.std.specs.Prelude.{◌≡◌, IfOk};
ghost use Rattle.std.specs.Cmp.Lexicographic.{pointwise};
ghost use Rattle.cow_model.specs.Order as order;
ghost use Rattle.cow_model.specs.Plain as spec;

use crate::members::same;
use cow_model::{Literal, NoMemory, Pair, Plain};

/// The number of elements or pairs.
pub fn count(value: &Plain) -> usize
    ensures { result ≡ spec.count value.now }
{
    match value {
        Plain::Array(items)
        | Plain::Deque(items)
        | Plain::Set(items)
        | Plain::OSet(items)
        | Plain::Heap(items)
        | Plain::TSet(items)
        | Plain::Slice { items, .. } => items.len(),
        Plain::Dict(pairs) | Plain::ODict(pairs) | Plain::TDict(pairs) => pairs.len(),
    }
}

/// The number of atoms: a pair has two. Want of memory stands for a number past 64 bits.
pub fn size(value: &Plain) -> Result<u64, NoMemory>
    ensures { IfOk result (λ n. n ≡ spec.size value.now) }
{
    let count = count(value) as u64;
    match value {
        Plain::Dict(_) | Plain::ODict(_) | Plain::TDict(_) => {
            count.checked_mul(2).ok_or(NoMemory)
        }
        _ => Ok(count),
    }
}

/// Whether a value is a trie.
pub fn is_tree(value: &Plain) -> bool
    ensures { result ≡ spec.is_tree value.now }
{
    matches!(value, Plain::TSet(_) | Plain::TDict(_))
}

/// Plain data that can be compared.
pub trait Same {
    ghost use Rattle.std.specs.Prelude.{Bool};

    ghost same: { Self → Self → Bool };

    /// Whether the two are one.
    fn is_same(&self, other: &Self) -> bool
        ensures { result ≡ same self.now other.now };
}

impl Same for Literal {
    ghost same = { order.same };

    fn is_same(&self, other: &Self) -> bool {
        same(self, other)
    }
}

impl Same for Pair {
    ghost same = { spec.same_pair };

    fn is_same(&self, other: &Self) -> bool {
        same(&self.key, &other.key) && same(&self.value, &other.value)
    }
}

/// Whether two lists are one.
pub fn same_list<T: Same>(items: &[T], others: &[T]) -> bool
    ensures { result ≡ pointwise T.same items.now others.now }
{
    let mut items = items;
    let mut others = others;
    while let ([a, behind @ ..], [b, behind_other @ ..]) = (items, others) {
        if !a.is_same(b) {
            return false;
        }
        items = behind;
        others = behind_other;
    }
    items.is_empty() && others.is_empty()
}

/// Whether two values are one: of one kind, and with the same contents.
pub fn same_plain(value: &Plain, other: &Plain) -> bool
    ensures { result ≡ spec.same_plain value.now other.now }
{
    match (value, other) {
        (Plain::Array(items), Plain::Array(others))
        | (Plain::Deque(items), Plain::Deque(others))
        | (Plain::Set(items), Plain::Set(others))
        | (Plain::OSet(items), Plain::OSet(others))
        | (Plain::Heap(items), Plain::Heap(others))
        | (Plain::TSet(items), Plain::TSet(others)) => {
            same_list(items.as_slice(), others.as_slice())
        }
        (
            Plain::Slice { start, items },
            Plain::Slice {
                start: other,
                items: others,
            },
        ) => start == other && same_list(items.as_slice(), others.as_slice()),
        (Plain::Dict(pairs), Plain::Dict(others))
        | (Plain::ODict(pairs), Plain::ODict(others))
        | (Plain::TDict(pairs), Plain::TDict(others)) => {
            same_list(pairs.as_slice(), others.as_slice())
        }
        _ => false,
    }
}
