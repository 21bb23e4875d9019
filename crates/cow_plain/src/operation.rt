// What a statement does to the value of a name, kind by kind: the value after it and what is printed,
// or why it is refused.
mod additions;
mod answers;
mod changes;
mod kinds;
mod removals;
mod together;

pub use additions::{append, insert, insert_at, made, prepend, put, update};
pub use answers::{Answer, element, fitting, index, wrong};
pub use changes::{clear, rebase, reserve, reversed, rotate, set, slice, splice, swap};
pub use kinds::{Listed, Mapped};
pub use removals::{pop, remove, remove_at, replace};
pub use together::{extend, inter, merge, minus, symdiff, union, within};
