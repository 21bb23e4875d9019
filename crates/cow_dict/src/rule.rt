/// Whose value stands under a key of both where two dictionaries are merged.
#[derive(Clone, Copy, Debug, PartialEq, Eq)]
pub enum Merge {
    /// That of the dictionary that is changed.
    Keep,
    /// That of the other.
    Take,
}
