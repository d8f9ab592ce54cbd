//! The lines that the program writes, each with its line feed.
//!
//! Lines that have to come even where memory is short are texts that stand ready.

ghost use Rattle.std.specs.Prelude.{◌≡◌, IfOk, IfErr, string_bytes};
ghost use Rattle.ion_run.specs.Lines.{fault_line, whose_word, refusal_line, equivalent_line, different_line};
ghost use Rattle.ion_streams.specs.Listing.{accepted_line};

use ion_docs::{Side, path_text};
use ion_model::{Path, Refusal};
use ion_symtab::Fault;
use std::alloc::{AllocError, Global};

/// Tells how the program is called.
pub const USAGE: &str =
    "usage: ion_cmd check|show|convert|compare FILE.. [--to text|binary] [--catalog FILE] [--depth N] [--item N]\n";

/// Whose document was refused.
#[derive(Clone, Copy, Debug, PartialEq, Eq)]
pub enum Whose {
    /// The only one.
    Only,
    /// That of the catalog.
    Catalog,
    /// One of two that are compared.
    One(Side),
}

impl Whose {
    /// The word for it in the line of a refusal, with a space behind it; none where it is the only
    /// document.
    fn word(self) -> &'static str
        ensures { result.now ≡ whose_word self }
    {
        match self {
            Whose::Only => "",
            Whose::Catalog => "catalog ",
            Whose::One(Side::Left) => "left ",
            Whose::One(Side::Right) => "right ",
        }
    }
}

/// The line of a fault.
pub fn fault_line(fault: Fault) -> &'static str
    ensures { result.now ≡ fault_line fault }
{
    match fault {
        Fault::Memory => "fault Memory\n",
        Fault::Read => "fault Read\n",
        Fault::Write => "fault Write\n",
        Fault::TooManyReads => "fault TooManyReads\n",
        Fault::TooLarge => "fault TooLarge\n",
        Fault::Open => "fault Open\n",
    }
}

/// The line of a refusal: whose document, the octets up to where it came, and the reason.
pub fn refusal_line(alloc: Global, whose: Whose, refusal: Refusal) -> Result<String, AllocError>
    ensures { IfOk result (λ line. string_bytes line ≡ refusal_line whose refusal) }
{
    let document = whose.word();
    let offset = refusal.offset;
    let reason = refusal.reason.name();
    format!(in alloc; "refused {document}{offset} {reason}\n")
}

/// The line of a document of so many values.
pub fn accepted_line(alloc: Global, values: u64) -> Result<String, AllocError>
    ensures { IfOk result (λ line. string_bytes line ≡ accepted_line values) }
{
    format!(in alloc; "accepted {values}\n")
}

/// The line of two documents of the same values, so many.
pub fn equivalent_line(alloc: Global, values: u64) -> Result<String, AllocError>
    ensures { IfOk result (λ line. string_bytes line ≡ equivalent_line values) }
{
    format!(in alloc; "equivalent {values}\n")
}

/// The line of two documents that part at this value, counted from 1, and within it at this path.
/// The only fault is `Memory`.
pub fn different_line(alloc: Global, index: u64, path: &Path) -> Result<String, Fault>
    ensures line { IfOk result (λ line. string_bytes line ≡ different_line index path.now) }
    ensures memory { IfErr result (λ fault. fault ≡ Fault.Memory) }
{
    if path.parts().is_empty() {
        return Ok(format!(in alloc; "different {index}\n")?);
    }
    let place = path_text(alloc, path).map_err(|_| Fault::Memory)?;
    Ok(format!(in alloc; "different {index} {place}\n")?)
}
