// The sections of a script file in code: its words by record, and questions 1, 2, 3 and 5.
#![tactic(auto)]

mod bytes;
mod contents;
mod files;
mod layout;

pub use bytes::{find_name, kind_at, node_word, own_count, record_at, record_word};
pub use contents::{count_of, entry_of, kind_of, most_of};
pub use files::File;
pub use layout::{counts_fit, length_fits, owner_of, owners_fit, places_fit};
