// The names of a block, in the order in which they were first given a value.
ghost use Rattle.std.specs.Prelude.{◌≡◌, map, position};
ghost use Rattle.std.specs.Str.{bytes_eq};
ghost use Rattle.cow_model.specs.Env as spec;
ghost use Rattle.cow_eval.specs.Entries.{entry_of};

use crate::entry::Entry;
use cow_cell::Stock;
use cow_value::Values;

// The first entry of a name.
fn locate<V: Values<Q>, Q: Stock>(names: &[Entry<V, Q>], name: &[u8]) -> Option<usize>
    ensures { result ≡ position (λ e. bytes_eq e.name name.now) names.now }
{
    names.iter().position(|entry| entry.is_named(name))
}

/// The place of a name, by a look at each of the at most 64.
pub fn find<V: Values<Q>, Q: Stock>(names: &[Entry<V, Q>], name: &[u8]) -> Option<usize>
    ensures { result ≡ spec.place_of name.now (map entry_of names.now) }
{
    locate(names, name)
}
