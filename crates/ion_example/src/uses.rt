//! Uses of the library, one question each, as a caller writes them. Each is proved, and run by the
//! program.
pub(crate) mod catalogs;
pub(crate) mod comparing;
pub(crate) mod counting;
pub(crate) mod summing;
pub(crate) mod writing;
