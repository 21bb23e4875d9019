// Names.
ghost use Rattle.std.specs.Prelude.{◌≡◌};
ghost use Rattle.std.specs.List.{list_any, list_all};
ghost use Rattle.std.specs.Str.{bytes_eq};
ghost use Rattle.cow_model.specs.Name as spec;

const RESERVED: [&[u8]; 13] = [
    b"array", b"slice", b"deque", b"set", b"dict", b"oset", b"odict", b"heap", b"tset", b"tdict",
    b"copy", b"take", b"as",
];

// How many bytes may follow the first of a name.
const MAX_MORE: usize = 15;

fn is_letter(byte: u8) -> bool
    ensures { result ≡ spec.is_letter byte }
{
    byte.is_ascii_lowercase()
}

fn goes_on(byte: u8) -> bool
    ensures { result ≡ spec.goes_on byte }
{
    is_letter(byte) || byte.is_ascii_digit() || byte == b'_'
}

fn all_go_on(bytes: &[u8]) -> bool
    ensures { result ≡ list_all spec.goes_on bytes.now }
{
    bytes.iter().all(|byte| goes_on(*byte))
}

fn is_among(words: &[&[u8]], word: &[u8]) -> bool
    ensures { result ≡ list_any (λ w. bytes_eq w.now word.now) words.now }
{
    words.iter().any(|w| *w == word)
}

fn is_reserved(word: &[u8]) -> bool
    ensures { result ≡ spec.is_reserved word.now }
{
    is_among(&RESERVED, word)
}

/// Whether a word is a name: a letter, up to 15 more of letters, digits and `_`, and no reserved word.
pub fn is_name(word: &[u8]) -> bool
    ensures { result ≡ spec.is_name word.now }
{
    match word {
        [] => false,
        [first, more @ ..] => {
            is_letter(*first) && all_go_on(more) && more.len() <= MAX_MORE && !is_reserved(word)
        }
    }
}
