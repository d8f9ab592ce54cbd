//! Tokens that lie whole at the front of octets.

pub(crate) mod annotations;
pub(crate) mod finders;
pub(crate) mod foresight;
pub(crate) mod long_strings;
pub(crate) mod marks;
pub(crate) mod symbols;
