//! Values without others in them, as they are built.
ghost use Rattle.std.specs.Prelude.{◌≡◌, IfOk, IfErr, MatchResult, option_map};
ghost use Rattle.ion_visiting.specs.Names.{number_payload, payload_of};
ghost use Rattle.ion_atoms.specs.declared.refusal.Reason.TheVariants.{Memory};

use crate::part::Part;
use crate::recent_symbols::RecentSymbols;
use ion_model::{Bytes, Payload, Reason, Symbol, Text};
use ion_scalar::Number;
use std::alloc::Global;

/// The symbol of this text, or the unknown one. The only refusal is `Memory`.
pub(crate) fn symbol_of(recent: &mut RecentSymbols, text: Option<&str>) -> Result<Symbol, Reason>
    ensures { MatchResult result
        (λ s. s ≡ option_map (λ t. t.now) text.entry) (λ reason. reason ≡ Memory) }
{
    match text {
        None => Ok(Symbol::unknown()),
        Some(text) => recent.symbol(text),
    }
}

/// The value of such a part, whose octets are copied. The only refusal is `Memory`.
pub(crate) fn payload_of(
    alloc: Global,
    recent: &mut RecentSymbols,
    said: &Part<'_>,
) -> Result<Payload, Reason>
    ensures pays { IfOk result (λ payload. payload ≡ payload_of said.now) }
    ensures memory { IfErr result (λ reason. reason ≡ Memory) }
{
    match said {
        Part::Null(kind) => Ok(Payload::Null(*kind)),
        Part::Truth(truth) => Ok(Payload::Truth(*truth)),
        Part::Symbol(text) => Ok(Payload::Symbol(recent.symbol(text)?)),
        Part::Str(text) => Ok(Payload::Str(Text::from_string(String::from_str(alloc, text)?))),
        Part::Clob(octets) => Ok(Payload::Clob(Bytes::from_vec(Vec::from_slice(alloc, octets)?))),
        Part::Blob(octets) => Ok(Payload::Blob(Bytes::from_vec(Vec::from_slice(alloc, octets)?))),
    }
}

/// The value of a number.
pub(crate) fn number_payload(number: Number) -> Payload
    ensures { result ≡ number_payload number }
{
    match number {
        Number::Int(whole) => Payload::Int(whole),
        Number::Decimal(decimal) => Payload::Decimal(decimal),
        Number::Timestamp(timestamp) => Payload::Timestamp(timestamp),
    }
}
