//! What values are told by, event by event, by whoever has their parts, in whatever encoding they are
//! read: what a visitor makes of them. Three count, outline and build; by three more values of any
//! encodings are compared: one is written down on a tape, another is told beside it, and found there
//! where it was told otherwise.
#![tactic(auto)]

mod bracket;
mod building;
mod count;
mod following;
pub mod laws;
mod outlining;
mod part;
mod payloads;
mod pushing;
mod range;
mod recent_symbols;
mod same_octets;
mod short;
mod table_building;
mod table_filter;
mod tape;
mod telling;
mod twin;
mod visitor;

pub use bracket::Bracket;
pub use building::Building;
pub use count::Count;
pub use following::Following;
pub use outlining::Outlining;
pub use part::{NumberBody, Part, number_kept, part_kept, text_kept};
pub use recent_symbols::RecentSymbols;
pub use table_filter::{TableFilter, is_fields};
pub use tape::Tape;
pub use telling::tell;
pub use twin::Twin;
pub use visitor::Visitor;
