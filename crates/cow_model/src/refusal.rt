ghost use Rattle.std.specs.Prelude.{◌≡◌};

/// Why a statement is refused: the first of these that holds. A refused statement changes nothing.
#[derive(Clone, Copy, Debug, PartialEq, Eq)]
pub enum Refusal {
    /// A name that is read isn't there.
    NoName,
    /// The value of a name is of a kind that the statement has nothing for.
    WrongKind,
    /// No rule has the number of a lazy statement.
    NoRule,
    /// A position, or a number of elements, is none of the value's.
    OutOfRange,
    /// The value would have more than 65,536 elements or pairs, or the name would be the 65th.
    Full,
    /// The line of `show` or `lazy show` is longer than what is left of its block's 4,194,304 bytes.
    TextFull,
}

impl Refusal {
    ghost use Rattle.cow_model.specs.Printed.{refusal};

    /// The line that a refused statement prints, with its newline.
    pub fn line(self) -> &'static [u8]
        ensures { result.now ≡ refusal self }
    {
        match self {
            Refusal::NoName => b"! no name\n",
            Refusal::WrongKind => b"! wrong kind\n",
            Refusal::NoRule => b"! no rule\n",
            Refusal::OutOfRange => b"! out of range\n",
            Refusal::Full => b"! full\n",
            Refusal::TextFull => b"! text full\n",
        }
    }
}
