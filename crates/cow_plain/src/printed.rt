// What statements print: atoms, values and lines.
ghost use Rattle.std.specs.Prelude.{◌≡◌, ℕ, ◌++◌, List, map, codes, IfOk, OnOk};
ghost use Rattle.std.specs.List.{flat_map};
ghost use Rattle.std.specs.Option.{option_copied};
ghost use Rattle.std.specs.Fmt as fmt;
ghost use Rattle.cow_model.specs.Printed as spec;

use cow_model::{Bytes, Literal, NoMemory, Pair, Plain};
use itoa::Buffer;
use std::alloc::Global;

/// What has a printed form.
pub trait Shown {
    ghost form: { Self → List ℕ };

    /// Appends the printed form. Want of memory leaves a part of it.
    fn put(&self, to: &mut Vec<u8>) -> Result<(), NoMemory>
        ensures { OnOk result (to.new.items ≡ to.old.items ++ form self.now) };
}

fn put_integer(to: &mut Vec<u8>, integer: i64) -> Result<(), NoMemory>
    ensures { OnOk result (to.new.items ≡ to.old.items ++ fmt.signed_decimal integer) }
{
    let mut buffer = Buffer::new();
    to.extend_from_slice(buffer.format(integer).as_bytes())?;
    Ok(())
}

fn put_escaped(to: &mut Vec<u8>, bytes: &[u8]) -> Result<(), NoMemory>
    ensures { OnOk result (to.new.items ≡ to.old.items ++ flat_map spec.escaped bytes.now) }
{
    for byte in bytes {
        if *byte == b'"' || *byte == b'\\' {
            to.push(b'\\')?;
        }
        to.push(*byte)?;
    }
    Ok(())
}

fn put_quoted(to: &mut Vec<u8>, bytes: &Bytes) -> Result<(), NoMemory>
    ensures { OnOk result (to.new.items ≡ to.old.items ++ spec.atom_text (Literal.Text bytes.now)) }
{
    to.push(b'"')?;
    put_escaped(to, bytes.as_slice())?;
    to.push(b'"')?;
    Ok(())
}

impl Shown for Literal {
    ghost form = { spec.atom_text };

    fn put(&self, to: &mut Vec<u8>) -> Result<(), NoMemory> {
        match self {
            Literal::Int(integer) => put_integer(to, *integer),
            Literal::Text(bytes) => put_quoted(to, bytes),
        }
    }
}

impl Shown for Pair {
    ghost form = { spec.pair_text };

    fn put(&self, to: &mut Vec<u8>) -> Result<(), NoMemory> {
        self.key.put(to)?;
        to.extend_from_slice(b": ")?;
        self.value.put(to)
    }
}

// Each item behind a comma.
fn put_others<T: Shown>(to: &mut Vec<u8>, items: &[T]) -> Result<(), NoMemory>
    ensures { OnOk result (to.new.items ≡ to.old.items ++ flat_map spec.behind_comma (map T.form items.now)) }
{
    for item in items {
        to.extend_from_slice(b", ")?;
        item.put(to)?;
    }
    Ok(())
}

// The items with commas between them.
fn put_separated<T: Shown>(to: &mut Vec<u8>, items: &[T]) -> Result<(), NoMemory>
    ensures { OnOk result (to.new.items ≡ to.old.items ++ spec.separated (map T.form items.now)) }
{
    match items {
        [] => Ok(()),
        [first, others @ ..] => {
            first.put(to)?;
            put_others(to, others)
        }
    }
}

// The items in brackets.
fn put_list<T: Shown>(to: &mut Vec<u8>, items: &[T]) -> Result<(), NoMemory>
    ensures { OnOk result (to.new.items ≡ to.old.items ++ codes "[" ++ spec.separated (map T.form items.now) ++ codes "]") }
{
    to.extend_from_slice(b"[")?;
    put_separated(to, items)?;
    to.extend_from_slice(b"]")?;
    Ok(())
}

// The pairs in brackets, or `[:]`.
fn put_pairs(to: &mut Vec<u8>, pairs: &[Pair]) -> Result<(), NoMemory>
    ensures { OnOk result (to.new.items ≡ to.old.items ++ spec.pairs_text pairs.now) }
{
    match pairs {
        [] => {
            to.extend_from_slice(b"[:]")?;
            Ok(())
        }
        _ => put_list(to, pairs),
    }
}

fn put_slice(to: &mut Vec<u8>, start: u64, items: &[Literal]) -> Result<(), NoMemory>
    ensures { OnOk result (to.new.items ≡ to.old.items ++ spec.list_text items.now ++ codes " from " ++ fmt.decimal start) }
{
    put_list(to, items)?;
    to.extend_from_slice(b" from ")?;
    let mut buffer = Buffer::new();
    to.extend_from_slice(buffer.format(start).as_bytes())?;
    Ok(())
}

// A printed form of its own.
fn form<T: Shown>(alloc: Global, item: &T) -> Result<Bytes, NoMemory>
    ensures { IfOk result (λ text. text ≡ T.form item.now) }
{
    let mut text = Vec::new(alloc);
    item.put(&mut text)?;
    Ok(Bytes::from_vec(text))
}

/// The printed form of an atom.
pub fn atom_text(alloc: Global, atom: &Literal) -> Result<Bytes, NoMemory>
    ensures { IfOk result (λ text. text ≡ spec.atom_text atom.now) }
{
    form(alloc, atom)
}

/// A key and its value.
pub fn pair_text(alloc: Global, pair: &Pair) -> Result<Bytes, NoMemory>
    ensures { IfOk result (λ text. text ≡ spec.pair_text pair.now) }
{
    form(alloc, pair)
}

/// Atoms in brackets, with commas between them.
pub fn list_text(alloc: Global, items: &[Literal]) -> Result<Bytes, NoMemory>
    ensures { IfOk result (λ text. text ≡ spec.list_text items.now) }
{
    let mut text = Vec::new(alloc);
    put_list(&mut text, items)?;
    Ok(Bytes::from_vec(text))
}

/// Pairs likewise; no pairs are `[:]`.
pub fn pairs_text(alloc: Global, pairs: &[Pair]) -> Result<Bytes, NoMemory>
    ensures { IfOk result (λ text. text ≡ spec.pairs_text pairs.now) }
{
    let mut text = Vec::new(alloc);
    put_pairs(&mut text, pairs)?;
    Ok(Bytes::from_vec(text))
}

impl Shown for Plain {
    ghost form = { spec.plain_text };

    fn put(&self, to: &mut Vec<u8>) -> Result<(), NoMemory> {
        match self {
            Plain::Array(items)
            | Plain::Deque(items)
            | Plain::Set(items)
            | Plain::OSet(items)
            | Plain::Heap(items)
            | Plain::TSet(items) => put_list(to, items.as_slice()),
            Plain::Dict(pairs) | Plain::ODict(pairs) | Plain::TDict(pairs) => {
                put_pairs(to, pairs.as_slice())
            }
            Plain::Slice { start, items } => put_slice(to, *start, items.as_slice()),
        }
    }
}

/// The printed form of a value.
pub fn plain_text(alloc: Global, value: &Plain) -> Result<Bytes, NoMemory>
    ensures { IfOk result (λ text. text ≡ spec.plain_text value.now) }
{
    form(alloc, value)
}

/// The printed form of what is there, or `nil`.
pub fn nil_or<T: Shown>(alloc: Global, item: Option<&T>) -> Result<Bytes, NoMemory>
    ensures { IfOk result (λ text. text ≡ spec.nil_or T.form (option_copied item.entry)) }
{
    match item {
        Some(item) => form(alloc, item),
        None => Ok(Bytes::from_vec(Vec::from_slice(alloc, b"nil")?)),
    }
}

/// `true` or `false`.
pub fn truth(alloc: Global, truth: bool) -> Result<Bytes, NoMemory>
    ensures { IfOk result (λ text. text ≡ spec.truth truth) }
{
    let text = if truth {
        b"true".as_slice()
    } else {
        b"false".as_slice()
    };
    Ok(Bytes::from_vec(Vec::from_slice(alloc, text)?))
}

/// A number in decimal.
pub fn decimal(alloc: Global, number: u64) -> Result<Bytes, NoMemory>
    ensures { IfOk result (λ text. text ≡ fmt.decimal number) }
{
    let mut buffer = Buffer::new();
    let text = buffer.format(number).as_bytes();
    Ok(Bytes::from_vec(Vec::from_slice(alloc, text)?))
}

/// A text and a newline.
pub fn line(alloc: Global, text: &[u8]) -> Result<Bytes, NoMemory>
    ensures { IfOk result (λ made. made ≡ spec.line text.now) }
{
    let mut made = Vec::from_slice(alloc, text)?;
    made.push(b'\n')?;
    Ok(Bytes::from_vec(made))
}
