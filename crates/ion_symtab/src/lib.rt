//! What every reader of Ion documents promises, the limits and the catalog under which it reads,
//! and the devices that octets come from and go to.
#![tactic(auto)]

mod catalog;
mod catalog_index;
mod context;
mod fault;
mod fields;
mod history;
mod import;
mod inlet;
mod items;
pub mod laws;
mod limits;
mod outlet;
mod segments;
mod shared_table;
mod symbols;
mod target;
mod writing;

pub use catalog::Catalog;
pub use context::{Context, SYSTEM_TEXTS};
pub use fault::Fault;
pub use history::History;
pub use inlet::{Failed, FromRead, Inlet};
pub use items::{Items, Step, Walked, Went};
pub use limits::Limits;
pub use outlet::{Outlet, ToWrite};
pub use segments::GREATEST_ID;
pub use shared_table::SharedTable;
pub use target::Target;
pub use writing::{flushed, write_whole};
