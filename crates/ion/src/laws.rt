//! The laws of documents, and of what is refused, for who proves on.

pub use ion_docs::laws::{
    catalog_documents, catalogs, catalogs_find, check_of_told, conversion_of_told, conversions,
    headline, listing_of_told, one_catalog, one_stream, one_verdict, reads_of_told, same_stream,
    verdict_of_told,
};
pub use ion_refusals::laws::{deciding, refusals};
