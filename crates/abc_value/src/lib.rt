//! Values and their total operators.
#![tactic(auto)]

mod bytes;
mod grant;
mod laws;
mod limits;
mod list;
mod literal;
mod memory;
mod number;
mod ops;
mod owner;
mod quoted;
mod read;
mod scalar;
mod scalar_read;
mod set;
mod text;
mod value;

pub use bytes::behind_first;
pub use grant::Grant;
pub use laws::{
    differences, least_free_numbers, limits_of_values, literals_differ, members_are_ordered,
    members_stand, same_is_equality, set_operators, sets_are_their_members, sets_of_lists, unions,
    written_is_read,
};
pub use limits::{GREATEST_PRINTABLE, LEAST_PRINTABLE, LONGEST_TEXT, MOST_MEMBERS};
pub use list::List;
pub use literal::{ValueRefusal, write_value};
pub use memory::NoMemory;
pub use ops::{add, holds, least_free, less, mul, same, set_of, size, sub, union, without};
pub use owner::Owner;
pub use read::read_value;
pub use scalar::Scalar;
pub use set::SetValue;
pub use text::ShortText;
pub use value::{Value, View};

#[cfg(test)]
mod tests;
