//! Local symbol tables that append to the context (Ion 1.0, "Symbols", "Local Symbol Tables"). Each
//! function appends to `out`, and its only fault is `Memory`, on which some of the octets may stand
//! there.
ghost use Rattle.std.specs.Prelude.{◌≡◌, ◌≤◌, ◌<◌, ◌^◌, ◌++◌, Some, codes, drop, length, OnOk, IsOkUnless};
ghost use Rattle.std.specs.List.{flat_map};
ghost use Rattle.ion_binary.specs.Names.{framed, name_text, named_octets, table_value, uint_octets, value_octets, var_uint_octets, with_count};
ghost use Rattle.ion_symtab.specs.declared.fault.Fault.TheVariants as faults;

use super::framing::{frame, insert_length, put_digits, put_framed, put_symbol};
use ion_names::{Name, Names};
use ion_symtab::Fault;
use std::alloc::Global;
use std::hash::BuildHasher;

/// Appends the local symbol table that gives the texts from an id on.
#[inline(never)]
pub(crate) fn put_table<S: BuildHasher + Drop>(
    alloc: Global,
    names: &Names<S>,
    first: usize,
    out: &mut Vec<u8>,
) -> Result<(), Fault>
    requires { first ≤ length names.now }
    ensures ok { let table = table_value (drop first names.now) in
        OnOk result (out.new.items ≡ out.old.items ++ value_octets names.now table) }
    ensures memory { IsOkUnless result faults.Memory }
{
    let base = names.id_of_text(alloc, "$ion_symbol_table")?;
    let place = out.len();
    out.push(0)?;
    put_counted(base, out)?;
    put_table_fields(alloc, names, base, first, out)?;
    frame(14, place, out)
}

// The one annotation, behind the length of its id.
fn put_counted(id: u64, out: &mut Vec<u8>) -> Result<(), Fault>
    requires { id < 2 ^ 63 }
    ensures ok { OnOk result (out.new.items ≡ out.old.items ++ with_count (var_uint_octets id)) }
    ensures memory { IsOkUnless result faults.Memory }
{
    let place = out.len();
    put_digits(id, out)?;
    insert_length(place, out.len() - place, out)
}

// The imports, which are the context so far, and the symbols.
fn put_table_fields<S: BuildHasher + Drop>(
    alloc: Global,
    names: &Names<S>,
    base: u64,
    first: usize,
    out: &mut Vec<u8>,
) -> Result<(), Fault>
    requires { first ≤ length names.now }
    ensures ok { let imports = named_octets names.now (Some (codes "imports")) (framed 7 (uint_octets base)) in
        let texts = framed 11 (flat_map (λ s. framed 8 (name_text s)) (drop first names.now)) in
        let symbols = named_octets names.now (Some (codes "symbols")) texts in
        OnOk result (out.new.items ≡ out.old.items ++ framed 13 (imports ++ symbols)) }
    ensures memory { IsOkUnless result faults.Memory }
{
    let imports = names.id_of_text(alloc, "imports")?;
    let symbols = names.id_of_text(alloc, "symbols")?;
    let place = out.len();
    out.push(0)?;
    put_digits(imports, out)?;
    put_symbol(base, out)?;
    put_digits(symbols, out)?;
    put_texts(names.from(first), out)?;
    frame(13, place, out)
}

// The texts as a list of strings.
fn put_texts(names: &[Name], out: &mut Vec<u8>) -> Result<(), Fault>
    ensures ok { OnOk result (out.new.items ≡
        out.old.items ++ framed 11 (flat_map (λ s. framed 8 (name_text s)) names.now)) }
    ensures memory { IsOkUnless result faults.Memory }
{
    let place = out.len();
    out.push(0)?;
    for name in names {
        put_framed(8, name.text().unwrap_or("").as_bytes(), out)?;
    }
    frame(11, place, out)
}
