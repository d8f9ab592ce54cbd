//! The library in use: two documents compared, the numbers of one summed, its strings counted by a
//! visitor, one built and written in either encoding, and one that needs shared symbol tables.
//! `ion_example FIELD FILE` sums the numbers in a field of the values of a file.
#![tactic(auto)]

mod uses;

use anyhow::{Context, Result, bail};
use ion::{Catalog, FromRead, Limits, Target};
use std::env;
use std::fs::File;
use uses::{catalogs, comparing, counting, summing, writing};

const LEFT: &[u8] = b"{name: \"a\", tags: [1, 2]}";

const RIGHT: &[u8] = b"{tags: [1, 3], name: \"a\"}";

const CUT: &[u8] = b"{name:";

const ORDERS: &[u8] = b"{item: nails, price: 12.50} {item: glue, price: 3} {item: none}";

const STRINGS: &[u8] = b"{name: \"a\", tags: [b, \"c\", '''d''' '''e''']}";

const TABLES: &[u8] =
    b"$ion_shared_symbol_table::{name: \"shop\", version: 1, symbols: [\"nails\"]}";

const USES: &[u8] =
    b"$ion_symbol_table::{imports: [{name: \"shop\", version: 1, max_id: 1}]} $10 $10";

fn main(rt: HostRuntime) -> Result<()> {
    let words = env::args(&rt)?.skip(1).collect::<Vec<String>>(rt.alloc())?;
    match words.as_slice() {
        [] => shown(&rt),
        [field, name] => summed(&rt, field, name),
        _ => bail!("usage: ion_example [FIELD FILE]"),
    }
}

/// Shows the calls over documents that stand above.
fn shown(rt: &HostRuntime) -> Result<()> {
    let alloc = rt.alloc();
    for right in [LEFT, RIGHT, CUT] {
        let line = comparing::told(alloc, LEFT, right)?;
        println!(rt; "{line}")?;
    }
    let sum = summing::sum_of(alloc, ORDERS, "price")?;
    println!(rt; "{sum} in all")?;
    let catalog = Catalog::new(alloc);
    let strings = counting::strings_in(
        alloc,
        &mut FromRead::new(STRINGS),
        &catalog,
        Limits::usual(),
    );
    drop(catalog); // before the `?`, as in `uses/comparing.rt`
    let strings = strings??;
    println!(rt; "{strings} strings")?;
    let text = writing::spelled(alloc)?;
    println!(rt; "{text}")?;
    for target in [Target::Text, Target::Binary] {
        let octets = writing::written(alloc, target)?;
        println!(rt; "{} octets", octets.len())?;
    }
    let count = catalogs::counted(alloc, TABLES, USES)?;
    println!(rt; "{count} values under the catalog")?;
    Ok(())
}

/// Prints the sum of the numbers in a field of the values of a file.
fn summed(rt: &HostRuntime, field: &str, name: &str) -> Result<()> {
    let file = File::open(rt, name).context(format_args!("opening {name}"))?;
    let sum = summing::sum_of(rt.alloc(), file, field).context(format_args!(
        "summing {field} of {name}"
    ))?;
    println!(rt; "{sum}")?;
    Ok(())
}
