//! The streams of documents, read from devices by whatever reader: how many values they have, a
//! line for each, all of them, their layout, the catalog that they describe, and whether two are
//! equivalent.
#![tactic(auto)]

mod all_values;
mod catalogs;
mod checking;
mod comparison;
mod layouts;
mod listing;
mod piece_reader;

pub use all_values::{read_items, read_octets};
pub use catalogs::load_items;
pub use checking::{check_items, visit_items};
pub use comparison::{Side, Verdict, compare_items};
pub use layouts::{LaidOut, lay_out_items};
pub use listing::show_items;
pub use piece_reader::{PieceReader, ReadState};
