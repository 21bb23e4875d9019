use thiserror::Error;

/// What is wrong with a line of a script.
#[derive(Clone, Copy, Debug, PartialEq, Eq)]
pub enum Flaw {
    BadWord,
    BadAtom,
    BadName,
    /// The line stands where it may not.
    ForkShape,
    /// There are `quantity` of something, of which `bound` are allowed.
    Limit { quantity: u64, bound: u64 },
}

/// Why bytes are no script: what is wrong with the first faulty line, counted from 1.
#[derive(Clone, Copy, Debug, PartialEq, Eq, Error)]
pub enum ParseFault {
    #[error("line {line}: bad word")]
    BadWord {
        line: u64,
    },
    #[error("line {line}: bad atom")]
    BadAtom {
        line: u64,
    },
    #[error("line {line}: bad name")]
    BadName {
        line: u64,
    },
    /// A line stands where it may not, or the fork of this line has no end.
    #[error("line {line}: bad fork")]
    ForkShape {
        line: u64,
    },
    #[error("line {line}: {quantity} is over the limit of {bound}")]
    Limit {
        line: u64,
        quantity: u64,
        bound: u64,
    },
}
