// The words that the program is given.
ghost use Rattle.std.specs.Prelude.{◌≡◌, ◌≤◌, map, IfSome};
ghost use Rattle.cow_run.specs.Options as spec;

use cow_lexis::integer;

/// The most workers that may be asked for.
const MAX_WORKERS: i64 = 64;

/// The workers where none are asked for.
const WORKERS: u32 = 4;

/// What `run` is asked for: whether the census follows, and how many workers a fork has at most.
#[derive(Clone, Copy, Debug, PartialEq, Eq)]
pub struct Running {
    pub census: bool,
    pub workers: u32,
}

// A number of workers: 1 to 64, in digits without leading zeros.
fn workers_of(word: &str) -> Option<u32>
    ensures word { result ≡ spec.workers_of word.now }
    ensures some { IfSome result (λ workers. 1 ≤ workers) }
{
    let number = integer(word.as_bytes())?;
    if number < 1 || number > MAX_WORKERS {
        return None;
    }
    Some(number as u32)
}

// `--workers w`, with the census or without.
fn with_workers(census: bool, word: &str) -> Option<Running>
    ensures word { result ≡ spec.with_workers census word.now }
    ensures some { IfSome result (λ running. 1 ≤ running.workers) }
{
    let workers = workers_of(word)?;
    Some(Running { census, workers })
}

// What the words behind `run` ask for.
fn flags(words: &[&str]) -> Option<Running>
    ensures words { result ≡ spec.flags (map (λ w. w.now) words.now) }
    ensures some { IfSome result (λ running. 1 ≤ running.workers) }
{
    match *words {
        [] => Some(Running {
            census: false,
            workers: WORKERS,
        }),
        [word] if word == "--census" => Some(Running {
            census: true,
            workers: WORKERS,
        }),
        [first, number] if first == "--workers" => with_workers(false, number),
        [first, second, number] if first == "--census" && second == "--workers" => {
            with_workers(true, number)
        }
        [first, number, last] if first == "--workers" && last == "--census" => {
            with_workers(true, number)
        }
        _ => None,
    }
}

/// What the words ask for: `run`, and behind it `--census` and `--workers w`, each at most once, in either order.
/// `None` where they are no option.
pub fn options(words: &[&str]) -> Option<Running>
    ensures words { result ≡ spec.options (map (λ w. w.now) words.now) }
    ensures some { IfSome result (λ running. 1 ≤ running.workers) }
{
    let (first, rest) = words.split_first()?;
    if *first == "run" { flags(rest) } else { None }
}
