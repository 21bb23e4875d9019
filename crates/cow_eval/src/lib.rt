//! Statements of the language that are no forks, run over values that the layer below makes.
//!
//! An [`Env`] keeps a name, a value and a flag for each of at most 64 names. The flag is what the sharing rule
//! knows: where it is true, the value is alone in its storage, which every environment keeps as an invariant.
//! [`run_step`] and, for lazy statements, [`look`] do what the definitions of `cow_model` say: the layer above uses the text that it appends, the
//! environment that it leaves, and [`Env::allowed`]. What goes from one environment to another is an [`Entry`]: a
//! name with its value and flag, which is lent or taken out of the one and accepted by the other.
//!
//! All is generic in the type of values, `V: Values<Q>` of `cow_value`: no kind shows here. Before a change of a
//! value whose flag is false the value tells whether it will be alone afterwards, and where it will the flag is set.
//! A change by another name's value reads that where it stands. A change by itself lends a second handle for the
//! statement, and leaves the flag false.
#![tactic(auto)]

mod both;
mod entry;
mod env;
mod lazy;
mod names;
mod run;
mod statement;

pub use entry::Entry;
pub use env::Env;
pub use lazy::look;
pub use run::run_step;
pub use statement::refuse;
