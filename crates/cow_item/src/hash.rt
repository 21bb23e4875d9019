// Hashes of 32 bits.
ghost use Rattle.std.specs.Prelude.{◌≡◌};
ghost use Rattle.cow_model.specs.Hash.{int_hash, fnv};

// The low half of the two's complement, exclusive or the high half.
pub(crate) fn of_int(x: i64) -> u32
    ensures { result ≡ int_hash x }
{
    let bits = x.cast_unsigned();
    (bits & 0xffff_ffff) as u32 ^ (bits >> 32) as u32
}

// FNV-1a, after Fowler, Noll and Vo: from the offset basis, each byte is taken in by an exclusive or, and
// the hash is then multiplied by the prime.
pub(crate) fn of_bytes(bytes: &[u8]) -> u32
    ensures { result ≡ fnv bytes.now }
{
    let mut hash: u32 = 2_166_136_261;
    for &byte in bytes {
        hash = (hash ^ u32::from(byte)).wrapping_mul(16_777_619);
    }
    hash
}
