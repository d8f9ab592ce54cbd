//! How is a value written as a document? In binary a table of its symbols stands before it.
use ion::{BinaryWriter, Fault, Reason, Target, TextWriter, ToWrite, Value, text_of};
use std::alloc::Global;

/// A document of one struct.
pub(crate) fn written(alloc: Global, target: Target) -> Result<Vec<u8>, Fault> {
    let value = order(alloc).map_err(|_| Fault::Memory)?;
    match target {
        Target::Binary => as_binary(alloc, &value),
        Target::Text => as_text(alloc, &value),
    }
}

fn as_binary(alloc: Global, value: &Value) -> Result<Vec<u8>, Fault> {
    let mut out = ToWrite::new(Vec::new(alloc));
    let mut writer = BinaryWriter::new(alloc)?;
    writer.put(&mut out, value)?;
    writer.finish(&mut out)?;
    Ok(out.into_inner())
}

fn as_text(alloc: Global, value: &Value) -> Result<Vec<u8>, Fault> {
    let mut out = ToWrite::new(Vec::new(alloc));
    let mut writer = TextWriter::new(alloc);
    writer.put(&mut out, value)?;
    writer.finish(&mut out)?;
    Ok(out.into_inner())
}

/// The text of that struct by itself.
pub(crate) fn spelled(alloc: Global) -> Result<String, Reason> {
    text_of(alloc, &order(alloc)?)
}

/// The struct: a name and two numbers.
fn order(alloc: Global) -> Result<Value, Reason> {
    let name = Value::string(alloc, "nails")?;
    let sizes = vec![in alloc; Value::int(alloc, 20), Value::int(alloc, 35)]?;
    let fields = vec![in alloc; ("name", name), ("sizes", Value::list(alloc, sizes))]?;
    Value::record(alloc, fields)
}
