// Digits of hashes, and sets of digits as the bits of a number. Each call is a few instructions.
ghost use Rattle.std.specs.Prelude.{◌≡◌, ◌≢◌, ◌<◌, ◌==◌, ℕ};
ghost use Rattle.std.specs.Int.{bit_at};
ghost use Rattle.cow_model.specs.Canon.{digit};
ghost use Rattle.cow_model.specs.Slots.{rank};

/// The five bits of a hash that a level looks at; of the last level there are two.
pub fn digit_of(hash: u32, level: u32) -> u32
    requires { level < 7 }
    ensures digit { result ≡ digit hash level }
    ensures small { result < 32 }
{
    (hash >> (5 * level)) & 31
}

/// Whether a digit is a member.
pub fn has(map: u32, d: u32) -> bool
    requires { d < 32 }
    ensures { result ≡ (bit_at map d == 1) }
{
    (map >> d) & 1 == 1
}

/// How many members are below a digit: the place in a dense row of what stands at the digit.
pub fn place(map: u32, d: u32) -> usize
    requires { d < 32 }
    ensures { result ≡ rank map d }
{
    (map & ((1 << d) - 1)).count_ones() as usize
}

/// The set with a member more.
pub fn with_member(map: u32, d: u32) -> u32
    requires { d < 32 }
    ensures same { bit_at result d ≡ 1 }
    ensures others { (e : ℕ) → e ≢ d → bit_at result e ≡ bit_at map e }
{
    map | (1 << d)
}

/// The set with a member fewer.
pub fn without_member(map: u32, d: u32) -> u32
    requires { d < 32 }
    ensures same { bit_at result d ≡ 0 }
    ensures others { (e : ℕ) → e ≢ d → bit_at result e ≡ bit_at map e }
{
    map & !(1 << d)
}
