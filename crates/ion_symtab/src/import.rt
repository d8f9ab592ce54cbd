//! Imports of shared symbol tables (Ion 1.0, "Symbols", "Imports").
ghost use Rattle.std.specs.Prelude.{◌≡◌, Ok, Err, Some, MatchResult, MatchOption, option_map, option_copied};
ghost use Rattle.ion_symtab.specs.Names.{chosen, find, import_of, newest};
ghost use Rattle.ion_atoms.specs.declared.refusal.Reason.TheVariants as reasons;
ghost use Rattle.ion_symtab.specs.kept.Seen.{import_seen};

use crate::catalog::Catalog;
use crate::fields::{count_of, only, table_name, version_of};
use crate::shared_table::SharedTable;
use ion_model::{Field, Reason};

/// The shared table that an import means, and its number of slots: the table is cut or filled up to
/// that number.
#[derive(Clone, Copy)]
pub(crate) struct Import<'c> {
    pub(crate) table: &'c SharedTable,
    pub(crate) count: u128,
}

/// What the struct of these fields imports; `None` where it is ignored.
///
/// `RepeatedField` where `name`, `version` or `max_id` stands twice, `MissingImport` where the
/// catalog has no table for it.
pub(crate) fn import_of<'c>(
    fields: &[Field],
    catalog: &'c Catalog,
) -> Result<Option<Import<'c>>, Reason>
    ensures { MatchResult result
        (λ i. import_of catalog.now fields.now ≡ Ok (option_map import_seen i))
        (λ r. import_of catalog.now fields.now ≡ Err r) }
{
    let name = only(fields, "name")?;
    let version = only(fields, "version")?;
    let max_id = only(fields, "max_id")?;
    let Some(name) = table_name(name) else {
        return Ok(None);
    };
    match chosen(catalog, name, version_of(version), count_of(max_id)) {
        None => Err(Reason::MissingImport),
        Some(import) => Ok(Some(import)),
    }
}

// The table of that name and version and, where the import says how many slots it has, else that of
// the name with the greatest version; with the number of slots.
fn chosen<'c>(
    catalog: &'c Catalog,
    name: &str,
    version: u128,
    max_id: Option<u128>,
) -> Option<Import<'c>>
    ensures { MatchOption result
        (chosen (find catalog.now name.now version) (newest catalog.now name.now) max_id
        ≡ Err reasons.MissingImport)
        (λ i. chosen (find catalog.now name.now version) (newest catalog.now name.now) max_id
        ≡ Ok (Some (import_seen i))) }
{
    match (catalog.exact(name, version), max_id) {
        (Some(table), Some(count)) => Some(Import { table, count }),
        (Some(table), None) => Some(Import {
            table,
            count: table.symbols().as_slice().len() as u128,
        }),
        (None, Some(count)) => match catalog.newest(name) {
            None => None,
            Some(table) => Some(Import { table, count }),
        },
        (None, None) => None,
    }
}
