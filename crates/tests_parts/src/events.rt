//! Values told to visitors, event by event. What is owned is let go by a call of `drop`, as in
//! `model.rt`.
use crate::answers::{holds, same};
use ion_model::{Field, Kind, Outline, Payload, Reason, Sequence, Symbol, Value};
use ion_visiting::{Bracket, Building, Count, Outlining, Visitor, tell};
use std::alloc::Global;
use std::test::Fail;

/// `[null.int,true,-7,one::two::word,"text",{{Ymxv}}]`, the last a blob.
fn scalars(alloc: Global) -> Result<Value, Reason> {
    let word = Value::symbol(alloc, "word")?.annotated(alloc, &["one", "two"])?;
    let (text, blob) = (Value::string(alloc, "text")?, Value::blob(alloc, b"blo")?);
    let (null, truth) = (Value::null(alloc, Kind::Int), Value::bool(alloc, true));
    let items = vec![in alloc; null, truth, Value::int(alloc, -7), word, text, blob]?;
    Ok(Value::list(alloc, items))
}

/// `inner::{a:(empty::[]),a:[..]}`, with the scalars at the end.
fn nested(alloc: Global) -> Result<Value, Reason> {
    let empty = Value::list(alloc, Vec::new(alloc)).annotated(alloc, &["empty"])?;
    let sexp = Value::sexp(alloc, vec![in alloc; empty]?);
    let record = Value::record(alloc, vec![in alloc; ("a", sexp), ("a", scalars(alloc)?)]?)?;
    record.annotated(alloc, &["inner"])
}

/// A symbol in a field, both of unknown text.
fn unknown(alloc: Global) -> Result<Value, Reason> {
    let value = Value::bare(alloc, Payload::Symbol(Symbol::unknown()));
    let name = Symbol::unknown();
    let fields = Sequence::from_vec(vec![in alloc; Field { name, value }]?);
    Ok(Value::bare(alloc, Payload::Fields(fields)))
}

/// Whether what this visitor built of a value is the value, of which none is left there.
fn is_built(building: &mut Building, value: Value) -> bool {
    let told = tell(&value, building);
    let built = building.take();
    let found = told && built.as_ref() == Some(&value);
    drop(value);
    drop(built);
    found && building.take().is_none()
}

#[test]
fn told_values_are_built(rt: HostRuntime) -> Result<(), Fail> {
    let mut building = Building::new(rt.alloc());
    for make in 0..3_u8 {
        let value = match make {
            0 => scalars(rt.alloc())?,
            1 => nested(rt.alloc())?,
            _ => unknown(rt.alloc())?,
        };
        same(&rt, make, is_built(&mut building, value), true);
    }
    drop(building);
    Ok(())
}

/// What was told in part and let go isn't part of the next value.
#[test]
fn building_begins_anew(rt: HostRuntime) -> Result<(), Fail> {
    let mut building = Building::new(rt.alloc());
    let begun = building.annotation(Some("note")) && building.open(Bracket::Fields);
    holds(&rt, "a struct was opened", begun && building.name(None));
    holds(&rt, "it is no value yet", building.take().is_none());
    building.clear();
    let found = is_built(&mut building, nested(rt.alloc())?);
    drop(building);
    same(&rt, "the next value", found, true);
    Ok(())
}

/// Nothing is made of a close without its open, nor of a name outside of a struct.
#[test]
fn events_of_no_value_are_refused(rt: HostRuntime) {
    let mut building = Building::new(rt.alloc());
    let closes = building.close(Bracket::List);
    let names = building.name(Some("a"));
    drop(building);
    same(&rt, "closes, names", (closes, names), (false, false));
}

/// The outline of a value that is told, and its own.
fn outlines(alloc: Global) -> Result<(Outline, Outline), Reason> {
    let value = nested(alloc)?;
    let mut outlining = Outlining::new();
    let told = tell(&value, &mut outlining);
    let own = value.outline();
    drop(value);
    let outline = outlining.take();
    Ok((outline, if told { own } else { outlining.take() }))
}

#[test]
fn told_values_are_outlined(rt: HostRuntime) -> Result<(), Fail> {
    let (told, own) = outlines(rt.alloc())?;
    same(&rt, "outlines", told, own);
    same(&rt, "depth and nodes", (own.depth, own.nodes), (3, 16));
    Ok(())
}

#[test]
fn ended_values_are_counted(rt: HostRuntime) -> Result<(), Fail> {
    let mut count = Count::new();
    for _ in 0..2_u8 {
        let value = nested(rt.alloc())?;
        let told = tell(&value, &mut count) && count.ended();
        drop(value);
        same(&rt, "told", told, true);
    }
    same(&rt, "values", count.values(), 2);
    Ok(())
}
