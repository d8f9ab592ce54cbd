//! Do two documents carry the same data, and else where do they part?
use ion::{
    Catalog, Fault, FromRead, Limits, Side, Verdict, compare, position_of, spelling_of_path,
};
use std::alloc::Global;

/// Says in a line what `compare` answers of two documents.
pub(crate) fn told(alloc: Global, left: &[u8], right: &[u8]) -> Result<String, Fault> {
    let catalog = Catalog::new(alloc);
    let limits = Limits::usual();
    let mut first = FromRead::new(left);
    let mut second = FromRead::new(right);
    let verdict = compare(alloc, &mut first, &mut second, &catalog, limits);
    // What is let go before a `?` isn't let go on its way out, which would have to be proved too.
    drop(catalog);
    match verdict? {
        Verdict::Equivalent { values } => Ok(format!(in alloc; "{values} values, the same data")?),
        Verdict::Different { index, path } => {
            let spelled = spelling_of_path(&path);
            let line = format!(in alloc; "value {index} differs at {spelled}");
            drop(path);
            Ok(line?)
        }
        Verdict::Refused { side, refusal } => {
            let octets = match side {
                Side::Left => left,
                Side::Right => right,
            };
            let at = position_of(&mut FromRead::new(octets), refusal.offset)?;
            Ok(format!(in alloc; "no document: line {}, column {}", at.line, at.column)?)
        }
    }
}
