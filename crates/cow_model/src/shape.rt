/// What a rule of lazy views does.
#[derive(Clone, Copy, Debug, PartialEq, Eq)]
pub enum Shape {
    /// Adds a number to each integer, within 64 bits.
    Add(i64),
    /// Negates each integer, within 64 bits.
    Negate,
    /// Keeps the even integers.
    Even,
    /// Keeps the integers below a number.
    Below(i64),
}
