// The environment of a block.
ghost use Rattle.std.specs.Prelude.{◌≡◌, ◌≤◌, ◌<◌, ◌+◌, ◌^◌, length, ◌++◌, ◌∷◌, [], true, is_some, IsOk, IfOk, IfSome, IfNone, OnOk, OnErr};
ghost use Rattle.cow_model.specs.Env as spec;
ghost use Rattle.cow_model.specs.Env.{given, renamed};
ghost use Rattle.cow_model.specs.Plain.{count, max_count};
ghost use Rattle.cow_model.specs.Purse.{less};
ghost use Rattle.cow_model.specs.Step.{gives};
ghost use Rattle.cow_value.specs.Seen.{units};
ghost use Rattle.cow_eval.specs.Entries.{IsKept, SeenEntry, entry_of};
ghost use Rattle.cow_eval.specs.Envs.{env_of, IsBare, Balances, Lends, Parts, LacksName};

use crate::entry::Entry;
use crate::names::find;
use cow_cell::{Holder, Stock};
use cow_model::{Name, NoMemory};
use cow_value::Values;
use std::alloc::Global;
use std::marker::Model;
use std::mem;

/// The most names of an environment.
const MAX_NAMES: usize = 64;

/// The bytes that `show` may print in one block.
const MAX_SHOWN: u64 = 4_194_304;

/// The names of a block with their values, how many bytes `show` may still print, and how many copies the
/// sharing rule has allowed.
#[derive(Drop)]
pub struct Env<V: Values<Q>, Q: Stock> {
    pub(crate) names: Vec<Entry<V, Q>>,
    pub(crate) room: u64,
    pub(crate) allowed: u64,
}

impl<V: Values<Q>, Q: Stock> Model for Env<V, Q> {
    ghost use Rattle.std.specs.Prelude.{All};
    ghost use Rattle.cow_eval.specs.Entries.{IsKept};
    ghost use Rattle.cow_eval.specs.Envs.{SeenEnv};

    ghost Value = { SeenEnv };

    ghost view = { λ e. record { names = e.names.items; room = e.room; allowed = e.allowed } };

    ghost invariant = { λ e. All IsKept e.names.items };
}

// Gives the handles of values back.
fn end_all<V: Values<Q>, Q: Stock>(names: Vec<Entry<V, Q>>, h: &mut Holder<Q>)
    ensures spare { h.old.spare + length names.items ≤ h.new.spare }
    ensures copied { h.new.copied ≡ h.old.copied }
    ensures bare { IsBare V.counted names.items → h.new.spare ≡ h.old.spare + length names.items }
{
    let mut names = names;
    while let Some(entry) = names.pop() {
        entry.end(h);
    }
}

impl<V: Values<Q>, Q: Stock> Env<V, Q> {
    /// No names, 4,194,304 bytes of room for `show`, and nothing allowed yet. Takes no memory.
    pub fn new(alloc: Global) -> Env<V, Q>
        ensures start { env_of result ≡ spec.start }
        ensures empty { result.names ≡ [] }
    {
        Env {
            names: Vec::new(alloc),
            room: MAX_SHOWN,
            allowed: 0,
        }
    }

    /// How many copies the sharing rule has allowed so far.
    pub fn allowed(&self) -> u64
        ensures { result ≡ self.now.allowed }
    {
        self.allowed
    }

    /// Gives the handle of every value back: spare rises by at least the number of names, and by no more where
    /// no storage holds a unit.
    pub fn end(self, h: &mut Holder<Q>)
        ensures spare { h.old.spare + length self.names ≤ h.new.spare }
        ensures copied { h.new.copied ≡ h.old.copied }
        ensures bare { IsBare V.counted self.names → h.new.spare ≡ h.old.spare + length self.names }
    {
        end_all(self.names, h);
    }

    /// Whether a name may be given a value: it is there already, or fewer than 64 names are.
    pub fn has_place(&self, name: &[u8]) -> bool
        ensures { result ≡ spec.has_place name.now (env_of self.now).names }
    {
        find(&self.names, name).is_some() || self.names.len() < MAX_NAMES
    }

    /// A second whole value of a name, as an entry of its own; neither is alone. `None` where the name isn't
    /// there. One step beside the look at each name; it takes memory for the name.
    ///
    /// Errors: `NoMemory` alone. Nothing has changed then.
    pub fn lend(
        &mut self,
        alloc: Global,
        name: &[u8],
        h: &mut Holder<Q>,
    ) -> Result<Option<Entry<V, Q>>, NoMemory>
        requires spare { 1 ≤ h.old.spare }
        ensures some { IfOk result (λ r. IfSome r (Lends V.counted name.now self.old self.new)) }
        ensures spent { IfOk result (λ r. IfSome r (λ _. h.new ≡ less 1 h.old)) }
        ensures none { IfOk result (λ r. IfNone r (LacksName name.now self.old self.new × (h.new ≡ h.old))) }
        ensures err { OnErr result ((self.new ≡ self.old) × (h.new ≡ h.old)) }
    {
        let Some(at) = find(&self.names, name) else {
            return Ok(None);
        };
        let bytes = Vec::from_slice(alloc, name)?;
        let value = self.names[at].copy(h);
        Ok(Some(Entry::new(Name::from_vec(bytes), value, false)))
    }

    /// Takes a name out with its value. `None` where it isn't there. It moves the names behind it, and takes no
    /// memory.
    pub fn take(&mut self, name: &[u8]) -> Option<Entry<V, Q>>
        ensures some { IfSome result (Parts V.counted name.now self.old self.new) }
        ensures none { IfNone result (LacksName name.now self.old self.new) }
    {
        let Some(at) = find(&self.names, name) else {
            return None;
        };
        Some(self.names.remove(at))
    }

    /// Gives the name of an entry its value and flag. The handle of its old value is given back; a new name
    /// stands behind all others.
    ///
    /// Errors: `NoMemory` alone, for a new name. The handle of the entry is given back then.
    pub fn accept(&mut self, entry: Entry<V, Q>, h: &mut Holder<Q>) -> Result<(), NoMemory>
        ensures ok { OnOk result (env_of self.new
            ≡ renamed (given (entry_of entry) (env_of self.old).names) (env_of self.old)) }
        ensures allowed { self.new.allowed ≡ self.old.allowed }
        ensures copied { h.new.copied ≡ h.old.copied }
        ensures falls { h.old.spare ≤ h.new.spare }
        ensures bare { IsBare V.counted self.old.names → units V.counted entry.seen ≡ 0 →
            OnOk result (Balances V.counted 1 self.old.names self.new.names h.old h.new) }
    {
        match find(&self.names, entry.name()) {
            Some(at) => {
                mem::replace(&mut self.names[at], entry).end(h);
                Ok(())
            }
            None => match self.names.push(entry) {
                Ok(()) => Ok(()),
                Err(failed) => {
                    failed.value.end(h);
                    Err(NoMemory)
                }
            },
        }
    }

    /// Counts so many more copies as allowed.
    pub fn allow(&mut self, copies: u64)
        requires few { self.old.allowed + copies < 2 ^ 64 }
        ensures { self.new ≡ record self.old { allowed = self.old.allowed + copies } }
    {
        self.allowed += copies;
    }

    // Gives a new name its value, behind all others. Want of memory gives the handle back.
    fn push(
        &mut self,
        alloc: Global,
        name: &[u8],
        value: V,
        alone: bool,
        h: &mut Holder<Q>,
    ) -> Result<(), NoMemory>
        requires kept { IsKept (record { name = name.now; seen = V.seen value; flag = alone }) }
        ensures ok { OnOk result (self.new ≡ record self.old {
          names = self.old.names
              ++ (record { name = name.now; seen = V.seen value; flag = alone }) ∷ [];
        }) }
        ensures err { OnErr result (self.new ≡ self.old) }
        ensures copied { h.new.copied ≡ h.old.copied }
        ensures falls { h.old.spare ≤ h.new.spare }
        ensures spent { OnOk result (h.new ≡ h.old) }
    {
        let bytes = match Vec::from_slice(alloc, name) {
            Ok(bytes) => bytes,
            Err(_) => {
                value.end(h);
                return Err(NoMemory);
            }
        };
        if let Err(failed) = self
            .names
            .push(Entry::new(Name::from_vec(bytes), value, alone))
        {
            failed.value.end(h);
            return Err(NoMemory);
        }
        Ok(())
    }

    // Gives a name a value. A name that is there takes no memory; the handle of its old value is given back.
    pub(crate) fn give(
        &mut self,
        alloc: Global,
        name: &[u8],
        value: V,
        alone: bool,
        h: &mut Holder<Q>,
    ) -> Result<(), NoMemory>
        requires kept { IsKept (record { name = name.now; seen = V.seen value; flag = alone }) }
        ensures there { is_some (spec.place_of name.now (env_of self.old).names) ≡ true → IsOk result }
        ensures ok { OnOk result (env_of self.new ≡ gives name.now (V.seen value).value alone (env_of self.old)) }
        ensures allowed { self.new.allowed ≡ self.old.allowed }
        ensures copied { h.new.copied ≡ h.old.copied }
        ensures falls { h.old.spare ≤ h.new.spare }
        ensures bare { IsBare V.counted self.old.names → units V.counted (V.seen value) ≡ 0 →
            OnOk result (Balances V.counted 1 self.old.names self.new.names h.old h.new) }
    {
        match find(&self.names, name) {
            Some(at) => {
                self.names[at].put_value(value, alone, h);
                Ok(())
            }
            None => self.push(alloc, name, value, alone, h),
        }
    }
}
