// The names of a block and what they stand for.
ghost use Rattle.std.specs.Prelude.{◌≡◌, ◌≤◌, length, IfOk, Some, None};
ghost use Rattle.std.specs.Option.{option_copied};
ghost use Rattle.cow_model.specs.Env as spec;

use crate::copies::Whole;
use cow_model::{Entry, Environment, Name, NoMemory, Plain};
use sqlite_items::Items;
use std::alloc::Global;

// The most names of an environment.
const MAX_NAMES: usize = 64;

// The bytes that `show` may print in one block.
const MAX_SHOWN: u64 = 4_194_304;

/// The name of these bytes, which are copied.
pub fn named(alloc: Global, bytes: &[u8]) -> Result<Name, NoMemory>
    ensures { IfOk result (λ name. name ≡ bytes.now) }
{
    Ok(Name::from_vec(Vec::from_slice(alloc, bytes)?))
}

/// The environment at the start of a block, with these names.
pub fn start_with(names: Items<Entry>) -> Environment
    ensures { result ≡ spec.start_with names }
{
    Environment {
        names,
        room: MAX_SHOWN,
        allowed: 0,
    }
}

/// Where a name stands.
pub fn place_of(name: &[u8], names: &[Entry]) -> Option<usize>
    ensures { result ≡ spec.place_of name.now names.now }
{
    names.iter().position(|e| e.name.as_slice() == name)
}

/// The entry of a name.
pub fn entry_of<'a>(name: &[u8], names: &'a [Entry]) -> Option<&'a Entry>
    ensures { option_copied result ≡ spec.entry_of name.now names.now }
{
    names.get(place_of(name, names)?)
}

/// Whether a name may be given a value.
pub fn has_place(name: &[u8], names: &[Entry]) -> bool
    ensures { result ≡ spec.has_place name.now names.now }
{
    place_of(name, names).is_some() || names.len() < MAX_NAMES
}

/// The names once a name stands for a value.
pub fn given(entry: Entry, names: Items<Entry>) -> Result<Items<Entry>, NoMemory>
    ensures { IfOk result (λ made. made ≡ spec.given entry names) }
{
    let mut names = names;
    match place_of(entry.name.as_slice(), names.as_slice()) {
        Some(place) => names.set(place, entry),
        None => names.push(entry)?,
    }
    Ok(names)
}

/// The names without one.
pub fn without(name: &[u8], names: Items<Entry>) -> Items<Entry>
    ensures { result ≡ spec.without name.now names }
{
    let mut names = names;
    if let Some(place) = place_of(name, names.as_slice()) {
        names.remove(place);
    }
    names
}

// A copy of an entry whose value isn't taken to be alone.
fn shared(alloc: Global, entry: &Entry) -> Result<Entry, NoMemory>
    ensures { IfOk result (λ made. made ≡ spec.shared entry.now) }
{
    let name = named(alloc, entry.name.as_slice())?;
    let value = entry.value.whole(alloc)?;
    Ok(Entry {
        name,
        value,
        alone: false,
    })
}

/// The names with one of them no longer alone.
pub fn settled(alloc: Global, name: &[u8], names: Items<Entry>) -> Result<Items<Entry>, NoMemory>
    ensures { IfOk result (λ made. made ≡ spec.settled name.now names) }
{
    let mut names = names;
    let Some(place) = place_of(name, names.as_slice()) else {
        return Ok(names);
    };
    let Some(entry) = names.get(place) else {
        return Ok(names);
    };
    let entry = shared(alloc, entry)?;
    names.set(place, entry);
    Ok(names)
}

/// The environment once so many more copies are allowed.
pub fn allow(more: u64, env: Environment) -> Result<Environment, NoMemory>
    ensures { IfOk result (λ made. made ≡ spec.allow more env) }
{
    let Some(allowed) = env.allowed.checked_add(more) else {
        return Err(NoMemory);
    };
    Ok(Environment {
        names: env.names,
        room: env.room,
        allowed,
    })
}
