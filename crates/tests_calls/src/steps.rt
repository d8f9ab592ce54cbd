//! What a step and the end of a reader answer, said by what can be compared. What is owned is let
//! go by a call of `drop`, here and in all tests: that is one step of a proof, where the end of a
//! block is one for each of its parts.
ghost use Rattle.std.specs.Prelude.{◌+◌, ◌<◌, ◌^◌, length, IsNone};

use crate::held::held_behind;
use ion_model::Refusal;
use ion_symtab::Items;

/// Whether a step gives a value.
pub(crate) fn gives_value<R: Items>(reader: &mut R, octets: &[u8]) -> Result<bool, Refusal>
    requires room { R.taken reader.old + length octets.now < 2 ^ 63 }
    requires begins { IsNone (R.awaits reader.old) }
{
    let (_, gives, _) = held_behind(reader, octets)?;
    Ok(gives)
}

/// Whether the end gives no value.
pub(crate) fn ends<R: Items>(reader: R) -> Result<bool, Refusal>
    requires begins { IsNone (R.awaits reader) }
{
    match reader.finish() {
        Ok(value) => {
            let nothing = value.is_none();
            drop(value);
            Ok(nothing)
        }
        Err(refusal) => Err(refusal),
    }
}
