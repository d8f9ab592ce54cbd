//! Symbols, an empty path, the names and numbers of kinds and reasons, and values as keys of sets.
//! What is owned is let go by a call of `drop`: that is one step of a proof, where the end of a
//! block is one for each of its parts.
use crate::answers::{holds, same};
use ion_model::{
    Bytes, Decimal, Field, Kind, Local, Path, Payload, Precision, Reason, Sequence, Symbol, Text,
    Timestamp, Value, Whole,
};
use std::alloc::{AllocError, Global};
use std::collections::{BTreeSet, HashSet};
use std::hash::Hash;
use std::process::Abort;
use std::test::Fail;

/// A copy of the symbol has this text, and is the same.
fn is_copied(rt: &impl Abort, name: &Symbol, text: &str) -> Result<(), Reason> {
    let copy = name.copy()?;
    same(rt, "the copy", copy.text(), Some(text));
    holds(rt, "the copy is the same", copy.same(name));
    drop(copy);
    Ok(())
}

/// Of few octets, of 14, which a symbol holds itself, and of 15.
static TEXTS: [&str; 4] = ["", "name", "fourteen_octet", "fifteen__octets"];

#[test]
fn symbols(rt: HostRuntime) -> Result<(), Fail> {
    for text in &TEXTS {
        let name = Symbol::known(rt.alloc(), *text)?;
        let copied = is_copied(&rt, &name, *text);
        drop(name);
        copied?;
    }
    Ok(())
}

/// Neither a name nor the empty text is the unknown symbol.
#[test]
fn the_unknown_symbol(rt: HostRuntime) -> Result<(), Fail> {
    for text in &["name", ""] {
        let known = Symbol::known(rt.alloc(), *text)?;
        let found = known.same(&Symbol::unknown());
        drop(known);
        same(&rt, *text, found, false);
    }
    Ok(())
}

#[test]
fn an_empty_path_has_no_parts(rt: HostRuntime) {
    let count = Path::empty(rt.alloc()).parts().len();
    same(&rt, "parts", count, 0);
}

static REASONS: [(Reason, u8, &str); 4] = [
    (Reason::Memory, 1, "Memory"),
    (Reason::Float, 5, "Float"),
    (Reason::Depth, 19, "Depth"),
    (Reason::KeywordAsName, 22, "KeywordAsName"),
];

static KINDS: [(Kind, &str); 4] = [
    (Kind::Null, "null"),
    (Kind::Str, "string"),
    (Kind::Sexp, "sexp"),
    (Kind::Fields, "struct"),
];

#[test]
fn words(rt: HostRuntime) {
    for row in &REASONS {
        let found = (row.0.number(), row.0.name());
        same(&rt, row.2, found, (row.1, row.2));
    }
    for row in &KINDS {
        same(&rt, row.1, row.0.name(), row.1);
    }
}

/// A struct whose one field is ten to this power.
fn power(alloc: Global, exponent: i32) -> Result<Value, Fail> {
    let power = Decimal::new(false, 1, exponent).ok_or("no decimal")?;
    let mut fields = Sequence::new(alloc);
    fields.push(Field {
        name: Symbol::known(alloc, "power")?,
        value: Value::bare(alloc, Payload::Decimal(power)),
    })?;
    Ok(Value::bare(alloc, Payload::Fields(fields)))
}

/// Whether a hashed set of the one key has the equal key too, and not the other.
fn hashes<K: Ord + Hash>(alloc: Global, one: &K, equal: &K, other: &K) -> Result<bool, AllocError> {
    let mut keys = HashSet::new(alloc);
    let inserted = keys.insert(one);
    let finds = (keys.contains(&equal), keys.contains(&other));
    drop(keys);
    inserted?;
    Ok(finds == (true, false))
}

/// The same of a sorted set.
fn sorts<K: Ord>(alloc: Global, one: &K, equal: &K, other: &K) -> Result<bool, AllocError> {
    let mut keys = BTreeSet::new(alloc);
    let inserted = keys.insert(one);
    let finds = (keys.contains(&equal), keys.contains(&other));
    drop(keys);
    inserted?;
    Ok(finds == (true, false))
}

/// Whether sets of the one key have the equal key too, and not the other.
fn finds<K: Ord + Hash>(alloc: Global, one: &K, equal: &K, other: &K) -> Result<bool, AllocError> {
    Ok(hashes(alloc, one, equal, other)? && sorts(alloc, one, equal, other)?)
}

/// Noon of a leap day.
const NOON: Local = Local {
    year: 2024,
    month: 2,
    day: 29,
    hour: 12,
    minute: 0,
    second: 0,
    fraction: 0,
};

#[test]
fn scalars_as_keys(rt: HostRuntime) -> Result<(), Fail> {
    let (one, tenth) = (Decimal::new(false, 1, 0), Decimal::new(false, 1, -1));
    holds(&rt, "decimals", finds(rt.alloc(), &one, &one, &tenth)?);
    let unknown = Timestamp::new(NOON, Precision::Minute, None);
    let utc = Timestamp::new(NOON, Precision::Minute, Some(0));
    holds(&rt, "timestamps", finds(rt.alloc(), &utc, &utc, &unknown)?);
    Ok(())
}

/// Structs whose one fields are ten to these powers.
fn powers(alloc: Global, exponents: [i32; 3]) -> Result<Vec<Value>, Fail> {
    let mut values = Vec::new(alloc);
    for exponent in exponents {
        values.push(power(alloc, exponent)?)?;
    }
    Ok(values)
}

#[test]
fn values_as_keys(rt: HostRuntime) -> Result<(), Fail> {
    let powers = powers(rt.alloc(), [2, 2, 3])?;
    let found = match powers.as_slice() {
        [one, equal, other] => finds(rt.alloc(), one, equal, other),
        _ => Ok(false),
    };
    drop(powers);
    holds(&rt, "structs", found?);
    Ok(())
}

/// The text as `Text`, and its octets as `Bytes`.
fn kept(alloc: Global, text: &str) -> Result<(Text, Bytes), AllocError> {
    let bytes = text.as_bytes().to_vec(alloc)?;
    let text = String::from_str(alloc, text)?;
    Ok((Text::from_string(text), Bytes::from_vec(bytes)))
}

/// Whether texts, and their octets, are keys: one, an equal one and another.
fn texts_find(alloc: Global, texts: [&str; 3]) -> Result<(bool, bool), AllocError> {
    let one = kept(alloc, texts[0])?;
    let equal = kept(alloc, texts[1])?;
    let other = kept(alloc, texts[2])?;
    let found = (
        finds(alloc, &one.0, &equal.0, &other.0),
        finds(alloc, &one.1, &equal.1, &other.1),
    );
    drop(other);
    drop(equal);
    drop(one);
    Ok((found.0?, found.1?))
}

#[test]
fn atoms_as_keys(rt: HostRuntime) -> Result<(), Fail> {
    let alloc = rt.alloc();
    let (one, other) = (Whole::new(-1), Whole::new(1));
    holds(&rt, "ints", finds(alloc, &one, &one, &other)?);
    let kinds = finds(alloc, &Kind::Int, &Kind::Int, &Kind::Null)?;
    holds(&rt, "kinds", kinds);
    let reasons = finds(alloc, &Reason::Float, &Reason::Float, &Reason::Depth)?;
    holds(&rt, "reasons", reasons);
    same(
        &rt,
        "texts",
        texts_find(alloc, ["a", "a", "b"])?,
        (true, true),
    );
    let order = (
        other > one,
        Kind::Int < Kind::Decimal,
        Reason::Memory < Reason::Depth,
    );
    same(&rt, "order", order, (true, true, true));
    Ok(())
}

/// How many fields a struct has, and whether the first, and the payload, are those of another.
fn shared(value: &Value, other: &Value) -> Option<(usize, bool, bool)> {
    match (&value.payload, &other.payload) {
        (Payload::Fields(fields), Payload::Fields(others)) => {
            let first = fields.get(0)? == others.get(0)?;
            let all = fields == others && value.payload == other.payload;
            Some((fields.len(), first, all && fields.get(1).is_none()))
        }
        _ => None,
    }
}

#[test]
fn parts_are_compared(rt: HostRuntime) -> Result<(), Fail> {
    let powers = powers(rt.alloc(), [2, 2, 3])?;
    let found = match powers.as_slice() {
        [one, equal, other] => (shared(one, equal), shared(one, other)),
        _ => (None, None),
    };
    drop(powers);
    let wanted = (Some((1, true, true)), Some((1, false, false)));
    same(&rt, "structs", found, wanted);
    Ok(())
}
