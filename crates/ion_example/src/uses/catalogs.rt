//! How is a document read that needs shared symbol tables?
use anyhow::Result;
use ion::{FromRead, Limits, check, load_catalog};
use std::alloc::Global;

/// How many values a document has under the catalog that another document describes. A fault and a
/// refusal are errors of either document.
pub(crate) fn counted(alloc: Global, tables: &[u8], octets: &[u8]) -> Result<u64> {
    let limits = Limits::usual();
    let catalog = load_catalog(alloc, &mut FromRead::new(tables), limits)??;
    let count = check(alloc, &mut FromRead::new(octets), &catalog, limits);
    drop(catalog); // before the `?`, as in `comparing.rt`
    Ok(count??)
}
