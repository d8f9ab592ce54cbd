//! The text of one value.
ghost use Rattle.std.specs.Prelude.{◌≡◌, ◌++◌, MatchResult, OnOk, IsOkUnless, string_bytes};
ghost use Rattle.ion_text_writer.specs.Names.{IsKept, value_text};
ghost use Rattle.ion_atoms.specs.declared.refusal.Reason.TheVariants as reasons;
ghost use Rattle.ion_symtab.specs.declared.fault.Fault.TheVariants as faults;

use crate::text_out::TextOut;
use ion_model::{Reason, Value};
use ion_symtab::Fault;
use ion_visiting::tell;
use std::alloc::Global;
use std::mem;

/// Appends the text of a value, which was one that the types keep: its texts are UTF-8, its numbers
/// in range, its lobs octets. The only fault is `Memory`, on which some of the octets may stand
/// there.
#[tactic(auto, using(ion_spelling::specs::laws::TextTold::value_behind))]
pub fn put_value(alloc: Global, value: &Value, out: &mut Vec<u8>) -> Result<(), Fault>
    ensures ok { OnOk result (out.new.items ≡ out.old.items ++ value_text value.now) }
    ensures kept { OnOk result (IsKept value.now) }
    ensures memory { IsOkUnless result faults.Memory }
{
    let mut text = TextOut::behind(alloc, mem::replace(out, Vec::new(alloc)));
    let told = tell(value, &mut text);
    *out = text.into_octets();
    if told { Ok(()) } else { Err(Fault::Memory) }
}

/// The text of a value (Ion 1.0, "Ion Text Encoding"): the spelling in which the text writer puts
/// it on a line, without the LF. A local symbol table isn't a value: at the top level its text
/// would be read as a table.
///
/// The only refusal is `Memory`.
pub fn text_of(alloc: Global, value: &Value) -> Result<String, Reason>
    ensures { MatchResult result
        (λ text. string_bytes text ≡ value_text value.now)
        (λ reason. reason ≡ reasons.Memory) }
{
    let mut octets = Vec::new(alloc);
    put_value(alloc, value, &mut octets).map_err(|_| Reason::Memory)?;
    // texts that values keep are UTF-8, and so is what is written of them
    String::from_utf8(octets).map_err(|_| Reason::Memory)
}
