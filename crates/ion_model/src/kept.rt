//! What the types keep about themselves, by levels.
ghost use Rattle.ion_model.specs.Names.{out-Payload};
ghost use Rattle.ion_model.specs.Kept.{KeptScalar};

use crate::value::{Payload, Value};

impl Value {
    /// What the types keep about a scalar: a text is UTF-8, a number is in range, a clob or blob
    /// holds octets. Does nothing.
    pub fn scalar_kept(&self)
        ensures { KeptScalar (out-Payload self.now.payload) }
    {
        match &self.payload {
            Payload::Int(whole) => {
                let _value = whole.get();
            }
            Payload::Decimal(decimal) => {
                let _magnitude = decimal.magnitude();
            }
            Payload::Timestamp(timestamp) => {
                let _local = timestamp.local();
            }
            Payload::Symbol(symbol) => symbol.kept(),
            Payload::Str(text) => text.kept(),
            Payload::Clob(octets) => octets.kept(),
            Payload::Blob(octets) => octets.kept(),
            Payload::Null(_)
            | Payload::Truth(_)
            | Payload::List(_)
            | Payload::Sexp(_)
            | Payload::Fields(_) => {}
        }
    }
}
