//! The values of a document of either encoding.
ghost use Rattle.std.specs.Prelude.{◌≡◌, [], IfOk, IfErr};
ghost use Rattle.ion.specs.Names.{reads_of};
ghost use Rattle.ion.specs.Given.{HasGiven};

use crate::one_by_one::{Values, values_by};
use ion_docs::DocReader;
use ion_symtab::{Catalog, Fault, Inlet, Items, Limits};
use std::alloc::Global;

/// The values of the document of `reader` one by one: the stream that its octets denote (Ion 1.0,
/// "The Ion Data Model"), in either encoding. Nothing is read yet: `Values::next` and
/// `Values::each` read.
///
/// The only fault is `Memory`. Shared symbol tables are ordinary values here, and local ones are
/// none.
pub fn values<'r, 'a, R: Inlet>(
    alloc: Global,
    reader: &'r mut R,
    catalog: &'a Catalog,
    limits: Limits,
) -> Result<Values<'r, DocReader<'a>, R>, Fault>
    ensures same_reader { IfOk result (λ values.
        values.reader.ghost_name ≡ reader.entry.ghost_name) }
    ensures unread { IfOk result (λ values. values.reader.now ≡ reader.old) }
    ensures begun { IfOk result (λ values. HasGiven R.Inlet ⟦<DocReader<'static> as Items>⟧
        catalog.now limits reader.old reader.old values.place values.fault []) }
    ensures reads { IfOk result (λ values. reads_of values.place ≡ limits.reads) }
    ensures cause { IfErr result (λ fault. fault ≡ Fault.Memory) }
{
    let Ok(items) = DocReader::new(alloc, catalog, limits) else {
        return Err(Fault::Memory);
    };
    values_by(alloc, items, limits.reads(), reader)
}
