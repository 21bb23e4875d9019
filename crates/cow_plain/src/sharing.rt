// The sharing rule: how many copies a statement allows, and when a value is taken to be alone.
ghost use Rattle.std.specs.Prelude.{◌≡◌, IfOk, count_by, length};
ghost use Rattle.cow_model.specs.Hash as hash;
ghost use Rattle.cow_model.specs.Sharing as spec;
ghost use Rattle.cow_model.specs.declared.statement.Statement.{out-Statement};

use crate::plain::{is_tree, same_plain, size};
use cow_model::{Literal, NoMemory, Pair, Plain, Side, Statement};

/// The literal atoms of a statement.
pub fn literals(statement: &Statement) -> usize
    ensures { result ≡ spec.literals (out-Statement statement.now) }
{
    match statement {
        Statement::Let { atoms, .. } | Statement::Splice { atoms, .. } => atoms.len(),
        Statement::Append { .. }
        | Statement::Prepend { .. }
        | Statement::Insert { .. }
        | Statement::InsertAt { .. }
        | Statement::Update { .. }
        | Statement::Remove { .. }
        | Statement::Set { .. }
        | Statement::Get { .. }
        | Statement::Has { .. }
        | Statement::Place { .. }
        | Statement::Replace { .. } => 1,
        Statement::Put { .. } => 2,
        _ => 0,
    }
}

/// What a change of a value allows.
pub fn own_cost(alone: bool, value: &Plain) -> Result<u64, NoMemory>
    ensures { IfOk result (λ n. n ≡ spec.own_cost_of alone value.now) }
{
    if alone { Ok(0) } else { size(value) }
}

// The hash of an integer.
fn int_hash(x: i64) -> u32
    ensures { result ≡ hash.int_hash x }
{
    let bits = x.cast_unsigned();
    (bits & 0xffff_ffff) as u32 ^ (bits >> 32) as u32
}

// The hash of a text.
fn fnv(bytes: &[u8]) -> u32
    ensures { result ≡ hash.fnv bytes.now }
{
    let mut hash = 2_166_136_261u32;
    for &byte in bytes {
        hash = (hash ^ u32::from(byte)).wrapping_mul(16_777_619);
    }
    hash
}

// The hash of an atom.
fn literal_hash(a: &Literal) -> u32
    ensures { result ≡ hash.literal_hash a.now }
{
    match a {
        Literal::Int(x) => int_hash(*x),
        Literal::Text(bytes) => fnv(bytes.as_slice()),
    }
}

// Whether an atom has the hash of another.
fn same_hash(a: &Literal, b: &Literal) -> bool
    ensures { result ≡ spec.same_hash a.now b.now }
{
    literal_hash(a) == literal_hash(b)
}

// How many atoms have the hash of another.
fn alike(a: &Literal, items: &[Literal]) -> usize
    ensures { result ≡ count_by (spec.same_hash a.now) items.now }
{
    items.iter().filter(|b| same_hash(a, b)).count()
}

// How many keys have the hash of an atom.
fn keys_alike(a: &Literal, pairs: &[Pair]) -> usize
    ensures { result ≡ count_by (λ p. spec.same_hash a.now p.key) pairs.now }
{
    pairs.iter().filter(|p| same_hash(a, &p.key)).count()
}

// The copies of a trie's path.
fn path_cost(w: u64, n: u64, alike: u64) -> Result<u64, NoMemory>
    ensures { IfOk result (λ cost. cost ≡ spec.path_cost w n alike) }
{
    let whole = w.checked_mul(n).ok_or(NoMemory)?;
    let path = alike.checked_add(224).ok_or(NoMemory)?;
    let path = w.checked_mul(path).ok_or(NoMemory)?;
    Ok(whole.min(path))
}

/// What a change of one key allows.
pub fn key_cost(a: &Literal, alone: bool, value: &Plain) -> Result<u64, NoMemory>
    ensures { IfOk result (λ n. n ≡ spec.key_cost_of a.now alone value.now) }
{
    match value {
        Plain::TSet(items) => {
            let alike = alike(a, items.as_slice()) as u64;
            path_cost(1, items.len() as u64, alike)
        }
        Plain::TDict(pairs) => {
            let alike = keys_alike(a, pairs.as_slice()) as u64;
            path_cost(2, pairs.len() as u64, alike)
        }
        _ => own_cost(alone, value),
    }
}

/// What `pop` allows.
pub fn pop_cost(side: Side, alone: bool, value: &Plain) -> Result<u64, NoMemory>
    ensures { IfOk result (λ n. n ≡ spec.pop_cost_of side alone value.now) }
{
    match (side, value) {
        (Side::First, Plain::Slice { .. }) => Ok(if alone { 0 } else { 1 }),
        _ => own_cost(alone, value),
    }
}

/// What a change by another value allows for its own elements.
pub fn both_cost(alone: bool, value: &Plain) -> Result<u64, NoMemory>
    ensures { IfOk result (λ n. n ≡ spec.both_cost_of alone value.now) }
{
    if is_tree(value) {
        size(value)
    } else {
        own_cost(alone, value)
    }
}

/// Whether `pop` parts a value from those who share its storage.
pub fn pop_parts(side: Side, value: &Plain) -> bool
    ensures { result ≡ spec.pop_parts side value.now }
{
    !matches!((side, value), (Side::First, Plain::Slice { .. }))
}

/// Whether a value is alone once it has become another, by a change that parts it or not.
pub fn alone_if(parts: bool, alone: bool, value: &Plain, after: &Plain) -> bool
    ensures { result ≡ spec.alone_if parts alone value.now after.now }
{
    alone || parts && !same_plain(value, after)
}
