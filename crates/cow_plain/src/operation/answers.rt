// The answers of statements, and the places that their numbers name.
ghost use Rattle.std.specs.Prelude.{◌≡◌, ◌<◌, ◌≤◌, ◌+◌, pos, IfOk, IfSome, Err};
ghost use Rattle.cow_model.specs.Operation as spec;

use crate::plain::count;
use crate::printed::{line, nil_or};
use cow_model::{Bytes, Done, Literal, NoMemory, Plain, Refusal};
use std::alloc::Global;

/// What becomes of a statement.
pub type Answer = Result<Done, Refusal>;

/// Nothing is printed.
pub fn silent(alloc: Global, value: Plain) -> Result<Answer, NoMemory>
    ensures { IfOk result (λ answer. answer ≡ spec.silent value) }
{
    let reply = Bytes::from_vec(Vec::new(alloc));
    Ok(Ok(Done { value, reply }))
}

/// One line is printed.
pub fn replies(alloc: Global, text: &[u8], value: Plain) -> Result<Answer, NoMemory>
    ensures { IfOk result (λ answer. answer ≡ spec.replies text.now value) }
{
    let reply = line(alloc, text)?;
    Ok(Ok(Done { value, reply }))
}

/// The statement has nothing for values of this kind.
pub fn wrong() -> Result<Answer, NoMemory>
    ensures { IfOk result (λ answer. answer ≡ spec.wrong) }
{
    Ok(Err(Refusal::WrongKind))
}

/// A number is none of the value's places.
pub fn out_of_range() -> Result<Answer, NoMemory>
    ensures { IfOk result (λ answer. answer ≡ Err Refusal.OutOfRange) }
{
    Ok(Err(Refusal::OutOfRange))
}

/// The place that an index names in a list of `n` elements, of which the first has the index `start`.
pub fn index(start: u64, n: usize, i: i64) -> Option<usize>
    ensures place { result ≡ spec.index start n i }
    ensures within { IfSome result (λ k. k < n) }
{
    let place = u64::try_from(i).ok()?.checked_sub(start)?;
    if place < n as u64 {
        Some(place as usize)
    } else {
        None
    }
}

/// The place up to the end of a list of `n` elements that an index names.
pub fn index_to_end(n: usize, i: i64) -> Option<usize>
    ensures place { result ≡ spec.index 0 (n + 1) i }
    ensures within { IfSome result (λ k. k ≤ n) }
{
    let place = u64::try_from(i).ok()?;
    if place <= n as u64 {
        Some(place as usize)
    } else {
        None
    }
}

/// The first of `n` elements.
pub fn first_index(n: usize) -> Option<usize>
    ensures place { result ≡ spec.index 0 n (pos 0) }
    ensures within { IfSome result (λ k. k < n) }
{
    if n > 0 { Some(0) } else { None }
}

/// The last of `n` elements.
pub fn last_index(n: usize) -> Option<usize>
    ensures place { result ≡ spec.index 1 n (pos n) }
    ensures within { IfSome result (λ k. k < n) }
{
    if n > 0 { Some(n - 1) } else { None }
}

/// The elements `i` to `j - 1` of `n`.
pub fn stretch(n: usize, i: i64, j: i64) -> Option<(usize, usize)>
    ensures place { result ≡ spec.stretch n i j }
    ensures order { IfSome result (λ r. r.0 ≤ r.1) }
    ensures within { IfSome result (λ r. r.1 ≤ n) }
{
    let start = u64::try_from(i).ok()?;
    let end = u64::try_from(j).ok()?;
    if start <= end && end <= n as u64 {
        Some((start as usize, end as usize))
    } else {
        None
    }
}

/// The printed form of what stands at a place, or `nil`.
pub fn element(alloc: Global, items: &[Literal], place: usize) -> Result<Bytes, NoMemory>
    ensures { IfOk result (λ text. text ≡ spec.element items.now place) }
{
    nil_or(alloc, items.get(place))
}

/// The answer, where the value has at most 65,536 elements or pairs.
pub fn fitting(answer: Answer) -> Answer
    ensures { result ≡ spec.fitting answer }
{
    let done = answer?;
    if count(&done.value) <= 65_536 {
        Ok(done)
    } else {
        Err(Refusal::Full)
    }
}
