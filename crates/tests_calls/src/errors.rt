//! Errors of the calls, handed on by `?` to `anyhow`: its message is theirs.
use crate::answers::same;
use anyhow::Result;
use ion::values;
use ion_devices::FrailReader;
use ion_docs::check;
use ion_model::{Reason, Value};
use ion_symtab::{Catalog, FromRead, Inlet, Limits};
use ion_words::parse;
use std::alloc::Global;
use std::process::Abort;
use std::test::Fail;

/// A device whose first call fails.
fn failing() -> FromRead<FrailReader<'static>> {
    FromRead::new(FrailReader::new(b"1", 1, 1).failing(0))
}

/// `WordsError`.
fn of_words(alloc: Global) -> Result<()> {
    let request = parse(alloc, &["frob"])?;
    let _task = request.task;
    Ok(())
}

/// `Failed`.
fn of_a_device() -> Result<()> {
    let _count = failing().read(&mut [0u8; 4])?;
    Ok(())
}

/// `Fault` and `Refusal`, of the whole call.
fn of_a_document<R: Inlet + Drop>(alloc: Global, mut reader: R) -> Result<()> {
    let catalog = Catalog::new(alloc);
    let answer = check(alloc, &mut reader, &catalog, Limits::usual());
    drop(catalog);
    drop(reader);
    let _count = answer??;
    Ok(())
}

/// `Stop`, of the values one by one.
fn of_a_value(alloc: Global) -> Result<()> {
    let catalog = Catalog::new(alloc);
    let mut reader = FromRead::new(&b"]"[..]);
    let mut values = values(alloc, &mut reader, &catalog, Limits::usual())?;
    let next = values.next();
    drop(values);
    drop(reader);
    drop(catalog);
    drop(next?);
    Ok(())
}

/// `Reason`.
fn of_a_growth() -> Result<()> {
    let refused: std::result::Result<Value, Reason> = Err(Reason::Memory);
    drop(refused?);
    Ok(())
}

/// Fails the test unless the message of the error is this.
fn says(rt: &impl Abort, alloc: Global, found: Result<()>, wanted: &str) -> Result<(), Fail> {
    let text = match found {
        Ok(()) => String::from_str(alloc, "no error")?,
        Err(error) => format!(in alloc; "{error}")?,
    };
    same(rt, wanted, text.as_str() == wanted, true);
    drop(text);
    Ok(())
}

#[test]
fn errors_go_to_anyhow(rt: HostRuntime) -> Result<(), Fail> {
    let alloc = rt.alloc();
    says(&rt, alloc, of_words(alloc), "Usage")?;
    says(&rt, alloc, of_a_device(), "Failed")?;
    says(&rt, alloc, of_a_document(alloc, failing()), "Read")?;
    let closed = FromRead::new(&b"1 ]"[..]);
    says(&rt, alloc, of_a_document(alloc, closed), "3 Unexpected")?;
    says(&rt, alloc, of_a_value(alloc), "1 Unexpected")?;
    says(&rt, alloc, of_a_growth(), "Memory")
}
