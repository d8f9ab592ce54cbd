//! Whole Ion documents on devices: how many values they have, a line for each value, whether two
//! have equivalent streams, and the conversion of one.
#![tactic(auto)]

mod all_values;
mod catalogs;
mod conversion;
mod doc_reader;
mod doc_walk;
mod documents;
pub mod laws;
mod layouts;
mod memory;
mod paths;
mod writers;

pub use all_values::{read_all, read_document};
pub use catalogs::load_catalog;
pub use conversion::convert_items;
pub use doc_reader::DocReader;
pub use documents::{check, compare, convert, convert_with_hasher, show, visit};
pub use ion_streams::{
    LaidOut, Side, Verdict, check_items, compare_items, lay_out_items, load_items, read_items,
    read_octets, show_items, visit_items,
};
pub use ion_symtab::Target;
pub use layouts::lay_out;
pub use memory::{InMemory, in_memory};
pub use paths::{PathText, path_text, spelling_of_path};
pub use writers::Encoder;
