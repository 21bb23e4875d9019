ghost use Rattle.std.specs.Prelude.{◌≡◌, ◌≤◌, length, IfOk, IsOk};
ghost use Rattle.cow_model.specs.Held.{FitsPlace, held_bytes};

use std::alloc::{AllocError, Global};
use std::marker::Model;

/// The most bytes of a text that has no block.
const MAX_SHORT: usize = 30;

// Where the bytes of a text stand. In a short one those behind the first `len` mean nothing.
#[derive(Debug, Drop)]
enum Held {
    Short { len: u8, bytes: [u8; 30] },
    Long(Vec<u8>),
}

/// The bytes of a text, which contracts see as their list. Up to 30 of them stand in the value itself, so that
/// a short text takes no memory of its own.
#[derive(Debug, Drop)]
pub struct Bytes {
    held: Held,
}

impl Model for Bytes {
    ghost use Rattle.std.specs.Prelude.{List, ℕ};
    ghost use Rattle.cow_model.specs.Held.{FitsPlace, held_bytes};

    ghost Value = { List ℕ };

    ghost view = { λ b. held_bytes b.held };

    ghost invariant = { λ b. FitsPlace b.held };
}

// These bytes, where they are few.
#[inline(always)]
fn short(bytes: &[u8]) -> Held
    requires { length bytes.now ≤ 30 }
    ensures value { held_bytes result ≡ bytes.now }
    ensures fits { FitsPlace result }
{
    let len = bytes.len();
    let mut place = [0; 30];
    place[..len].copy_from_slice(bytes);
    Held::Short {
        len: len as u8,
        bytes: place,
    }
}

impl Bytes {
    /// These bytes. Takes no memory.
    pub fn from_vec(items: Vec<u8>) -> Self
        ensures { result ≡ items.items }
    {
        Bytes {
            held: Held::Long(items),
        }
    }

    /// A copy of these bytes, which takes memory only where they are more than 30.
    #[inline(always)]
    pub fn from_slice(alloc: Global, bytes: &[u8]) -> Result<Self, AllocError>
        ensures value { IfOk result (λ b. b ≡ bytes.now) }
        ensures few { length bytes.now ≤ 30 → IsOk result }
    {
        if bytes.len() <= MAX_SHORT {
            return Ok(Bytes { held: short(bytes) });
        }
        let items = Vec::from_slice(alloc, bytes)?;
        Ok(Bytes::from_vec(items))
    }

    /// The bytes, in order. Takes no memory.
    #[inline]
    pub fn as_slice(&self) -> &[u8]
        ensures { result.now ≡ self.now }
    {
        match &self.held {
            Held::Short { len, bytes } => &bytes[..usize::from(*len)],
            Held::Long(items) => items.as_slice(),
        }
    }
}

/// An atom as a script writes it: an integer, or a text without its quotes and escapes.
#[derive(Debug, Drop)]
pub enum Literal {
    Int(i64),
    Text(Bytes),
}
