//! What values of JSON mean: names, numbers, lists, choices, elements of a graph, and the arguments of calls.
//!
//! A type that has a form implements `Form`; `specs/Forms`, `specs/Fields` and `specs/Elements` say which values are of its form
//! and what each means, and `specs/Arguments` how a missing or wrong argument is refused. A reader answers a `Fault`, which becomes
//! a refusal once, in `argument`, where the argument's name is known. What is read keeps what `Form::is_formed` says: labels and
//! keys of an element are distinct. Memory is taken for what is read alone. Which arguments a call has is left to the crates above.
#![tactic(auto)]

mod arguments;
mod choice;
mod elements;
mod fault;
mod fields;
mod form;
mod single;

pub use arguments::{argument, list_or_empty, optional, required, wrong_argument};
pub use fault::Fault;
pub use fields::{given, has_only, has_only_fields, list_said, needed};
pub use form::{Form, read_items};
pub use single::{name_of, read_id, read_whole};
