// 36, asked after 35: "a table limit or the range of Int is passed". One pass over the tokens of a text, by the role and the offset of each.
#![tactic(auto)]

mod begun;
mod counts;
mod index;
mod records;

pub use counts::Counts;
pub use index::{Index, agreed, index_of};
pub use records::count_records;
