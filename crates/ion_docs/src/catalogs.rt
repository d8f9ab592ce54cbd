//! Catalogs from documents.
ghost use Rattle.std.specs.Prelude.{◌≡◌, ◌+◌, ◌≤◌, false, [], IfOk, IfErr, OnOk, length, ◌*◌};
ghost use Rattle.ion_docs.specs.Names.{AskedWhile, AtOneEnd, DescribeTables, IsLoaded, IsReadCause, documents};

use crate::doc_reader::DocReader;
use ion_model::Refusal;
use ion_streams::load_items;
use ion_symtab::{Catalog, Fault, Inlet, Limits};
use std::alloc::Global;

/// The catalog of the shared symbol tables that the values of a document describe (Ion 1.0,
/// "Symbols", "Shared Symbol Tables"). The document is read under a catalog of no tables.
///
/// Each value has to be a table that `SharedTable::from_value` takes, and no name and version may
/// come twice; the first value that is none is refused at once: `BadTable`, `RepeatedField` and
/// `DuplicateTable` carry the number of octets that were used when the value came, all octets where
/// only the end showed it to be whole. Octets that are no document are refused as by `check`, and
/// faults are those of `check`.
///
/// The answer is right about whatever octets begin with those that `reader` handed over during the
/// call, and end there where it answered its end. It is asked on only while they aren't refused and
/// each value that they give describes a table.
pub fn load_catalog<R: Inlet>(
    alloc: Global,
    reader: &mut R,
    limits: Limits,
) -> Result<Result<Catalog, Refusal>, Fault>
    ensures loaded { IfOk result (IsLoaded R.Inlet (documents [] limits) reader.old reader.new) }
    ensures at_once { AskedWhile R.Inlet (documents [] limits) reader.old reader.old reader.new
        DescribeTables }
    ensures one_end { AtOneEnd R.Inlet reader.old reader.new }
    ensures few_calls { R.calls_made reader.new ≤ R.calls_made reader.old + limits.reads }
    ensures few_octets { length (R.handed reader.new)
        ≤ length (R.handed reader.old) + 4096 * limits.reads }
    ensures no_read_failed { OnOk result (R.has_failed reader.new ≡ false) }
    ensures cause { IfErr result (IsReadCause R.Inlet limits.reads reader.old reader.new) }
{
    let none = Catalog::new(alloc);
    let items = DocReader::unread(alloc, &none, limits);
    load_items(alloc, items, limits.reads(), reader)
}
