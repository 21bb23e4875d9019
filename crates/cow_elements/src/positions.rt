// The places that the numbers of a statement name.
ghost use Rattle.std.specs.Prelude.{◌≡◌, ◌<◌, ◌≤◌, ◌+◌, ◌^◌, IfSome};
ghost use Rattle.cow_model.specs.Operation as spec;

/// The most elements of a value.
pub const MAX_COUNT: usize = 65_536;

/// The place that an index names in a list of `n` elements, of which the first has the index `start`.
pub fn index(start: usize, n: usize, i: i64) -> Option<usize>
    ensures place { result ≡ spec.index start n i }
    ensures within { IfSome result (λ k. k < n) }
{
    let place = u64::try_from(i).ok()?.checked_sub(start as u64)?;
    if place < n as u64 {
        Some(place as usize)
    } else {
        None
    }
}

/// The place up to the end of a list of `n` elements that an index names.
pub fn index_to_end(n: usize, i: i64) -> Option<usize>
    ensures place { result ≡ spec.index 0 (n + 1) i }
    ensures within { IfSome result (λ k. k ≤ n) }
{
    let place = u64::try_from(i).ok()?;
    if place <= n as u64 {
        Some(place as usize)
    } else {
        None
    }
}

/// The elements `i` to `j - 1` of `n`.
pub fn stretch(n: usize, i: i64, j: i64) -> Option<(usize, usize)>
    ensures place { result ≡ spec.stretch n i j }
    ensures order { IfSome result (λ r. r.0 ≤ r.1) }
    ensures within { IfSome result (λ r. r.1 ≤ n) }
{
    let start = u64::try_from(i).ok()?;
    let end = u64::try_from(j).ok()?;
    if start <= end && end <= n as u64 {
        Some((start as usize, end as usize))
    } else {
        None
    }
}
