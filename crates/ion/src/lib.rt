//! Amazon Ion 1.0 under one name: `use ion::{..}` gives values, documents read whole or one value
//! after the other, what they are converted to, where two of them part, and lines and columns.
//! Values one by one and the places of octets stand here, all else in the crates below.
#![tactic(auto)]

mod documents;
mod each;
pub mod laws;
mod one_by_one;
mod position;
mod spot;
mod stop;
pub mod visiting;

pub use documents::values;
pub use each::Each;
pub use ion_binary::BinaryWriter;
pub use ion_docs::{
    DocReader, InMemory, PathText, Side, Target, Verdict, check, compare, convert,
    convert_with_hasher, in_memory, load_catalog, path_text, read_all, read_document, show,
    spelling_of_path, visit,
};
pub use ion_model::{
    Bytes, Decimal, Field, Kind, Local, Outline, Part, Path, Payload, Precision, Reason, Refusal,
    Sequence, Symbol, Text, Timestamp, Value, Whole, equivalent, normalise, order, parting,
};
pub use ion_symtab::{
    Catalog, Failed, Fault, FromRead, Inlet, Limits, Outlet, SharedTable, ToWrite,
};
pub use ion_text_writer::{SymbolText, TextWriter, spelling_of, symbol_text, text_of};
pub use one_by_one::{Values, values_by};
pub use position::{Position, position_of};
pub use stop::Stop;
