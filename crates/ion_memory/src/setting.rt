//! The catalog and the limits that a call of another language asks for.
ghost use Rattle.std.specs.Prelude.{IfOk, IfErr};
ghost use Rattle.ion_memory.specs.Outcomes.{IsSetting, IsNoSetting};

use crate::documents::load_catalog;
use crate::ending::{Ending, Whose};
use ion_symtab::{Catalog, Limits};
use std::alloc::Global;

/// A catalog and limits.
#[derive(Debug, Drop)]
pub struct Setting {
    /// The shared symbol tables that documents may import.
    pub catalog: Catalog,
    /// How large documents may be.
    pub limits: Limits,
}

/// The catalog that these octets describe, and these limits; or how a call ends that has none.
///
/// No octets are a catalog of no tables. `depth` is 1 to 128 and `item` 1 to 2^30, or the limits
/// are wrong.
pub fn set_up(alloc: Global, catalog: &[u8], depth: u32, item: u64) -> Result<Setting, Ending>
    ensures some { IfOk result (λ setting.
        IsSetting catalog.now depth item setting.catalog setting.limits) }
    ensures none { IfErr result (IsNoSetting catalog.now depth item) }
{
    let Some(limits) = Limits::new(depth, item, 1 << 32) else {
        return Err(Ending::WrongLimits);
    };
    match load_catalog(alloc, catalog, limits) {
        Ok(Ok(catalog)) => Ok(Setting { catalog, limits }),
        Ok(Err(refusal)) => Err(Ending::Refused {
            whose: Whose::Catalog,
            refusal,
        }),
        Err(fault) => Err(Ending::Faulted { fault }),
    }
}
