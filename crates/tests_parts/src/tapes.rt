//! Values written on a tape, told again from there, and found there. What is owned is let go by a
//! call of `drop`, as in `model.rt`.
use crate::answers::same;
use ion_model::{Decimal, Payload, Reason, Symbol, Value, Whole};
use ion_scalar::{Number, decimal_of, timestamp_of};
use ion_visiting::{Bracket, Building, Following, NumberBody, Part, Tape, Twin, Visitor, tell};
use std::alloc::Global;
use std::test::Fail;

/// `{a:1,b:[word,{c:"text",d:null}],a:2}`: the fields of both structs in this order, or each as the
/// first that can be so. The text is given.
fn nested(alloc: Global, text: &str, reordered: bool) -> Result<Value, Reason> {
    let (text, truth) = (Value::string(alloc, text)?, Value::bool(alloc, true));
    let inner = match reordered {
        false => vec![in alloc; ("c", text), ("d", truth)]?,
        true => vec![in alloc; ("d", truth), ("c", text)]?,
    };
    let items = vec![in alloc; Value::symbol(alloc, "word")?, Value::record(alloc, inner)?]?;
    let list = Value::list(alloc, items).annotated(alloc, &["note"])?;
    let (one, two) = (Value::int(alloc, 1), Value::int(alloc, 2));
    let outer = match reordered {
        false => vec![in alloc; ("a", one), ("b", list), ("a", two)]?,
        true => vec![in alloc; ("b", list), ("a", one), ("a", two)]?,
    };
    Value::record(alloc, outer)
}

/// The tape of a value, which is let go.
fn taped(alloc: Global, value: Value) -> Tape {
    let mut tape = Tape::new(alloc);
    if !tell(&value, &mut tape) {
        tape.clear();
    }
    drop(value);
    tape
}

/// Whether the second value is found on the tape of the first. Both are let go.
fn is_found(alloc: Global, written: Value, value: Value) -> bool {
    let (tape, other) = (taped(alloc, written), taped(alloc, value));
    let mut following = Following::new(alloc);
    let found = following.finds(&tape, &other);
    drop(following);
    drop(tape);
    drop(other);
    found
}

#[test]
fn fields_are_found_in_any_order(rt: HostRuntime) -> Result<(), Fail> {
    for row in &[(false, false), (false, true), (true, false)] {
        let written = nested(rt.alloc(), "text", row.0)?;
        let value = nested(rt.alloc(), "text", row.1)?;
        let found = is_found(rt.alloc(), written, value);
        same(&rt, *row, found, true);
    }
    Ok(())
}

#[test]
fn another_text_is_not_found(rt: HostRuntime) -> Result<(), Fail> {
    for text in &["texts", "tex", "test"] {
        let written = nested(rt.alloc(), "text", false)?;
        let value = nested(rt.alloc(), *text, true)?;
        let found = is_found(rt.alloc(), written, value);
        same(&rt, *text, found, false);
    }
    Ok(())
}

/// Whether a value is told as another was beside which it is told, and whether it is found on that
/// one's tape once they parted. Both are let go.
fn is_twin(alloc: Global, written: Value, value: Value) -> (bool, bool) {
    let mut tapes = Twin::new(alloc);
    let told = tell(&written, &mut tapes.first) && tell(&value, &mut tapes);
    let alike = told && tapes.are_same();
    let parted = tapes.part_ways();
    let mut following = Following::new(alloc);
    let found = (
        alike,
        parted && following.finds(&tapes.first, &tapes.second),
    );
    drop(following);
    drop(tapes);
    drop(written);
    drop(value);
    found
}

#[test]
fn twins_part_where_they_are_told_otherwise(rt: HostRuntime) -> Result<(), Fail> {
    for row in &[
        ("text", false, (true, true)),
        ("text", true, (false, true)),
        ("test", false, (false, false)),
    ] {
        let written = nested(rt.alloc(), "text", false)?;
        let value = nested(rt.alloc(), row.0, row.1)?;
        let found = is_twin(rt.alloc(), written, value);
        same(&rt, *row, found, row.2);
    }
    Ok(())
}

/// Whether two values are found on the tape of another, the second one with the memory of the search
/// for the first. All are let go.
fn are_found(alloc: Global, written: Value, first: Value, second: Value) -> (bool, bool) {
    let tape = taped(alloc, written);
    let (first, second) = (taped(alloc, first), taped(alloc, second));
    let mut following = Following::new(alloc);
    let found = following.finds(&tape, &first);
    let other = following.finds(&tape, &second);
    drop(following);
    drop(tape);
    drop(first);
    drop(second);
    (found, other)
}

/// A search that ended inside of a struct leaves nothing to the next.
#[test]
fn a_search_begins_anew(rt: HostRuntime) -> Result<(), Fail> {
    for reordered in &[false, true] {
        let written = nested(rt.alloc(), "text", false)?;
        let first = nested(rt.alloc(), "texts", *reordered)?;
        let second = nested(rt.alloc(), "text", *reordered)?;
        let found = are_found(rt.alloc(), written, first, second);
        same(&rt, *reordered, found, (false, true));
    }
    Ok(())
}

/// Whether what a tape tells of a value is built as that value.
fn is_told_again(alloc: Global, value: Value) -> bool {
    let mut tape = Tape::new(alloc);
    let mut building = Building::new(alloc);
    let told = tell(&value, &mut tape) && tape.tell(&mut building);
    let built = building.take();
    let found = told && built.as_ref() == Some(&value);
    drop(built);
    drop(building);
    drop(tape);
    drop(value);
    found
}

#[test]
fn a_tape_tells_what_it_was_told(rt: HostRuntime) -> Result<(), Fail> {
    let value = nested(rt.alloc(), "text", false)?;
    same(&rt, "the value", is_told_again(rt.alloc(), value), true);
    Ok(())
}

/// The decimal of this sign, magnitude and exponent; the int where there is no exponent.
fn number(alloc: Global, negative: bool, magnitude: u128, exponent: Option<i32>) -> Option<Value> {
    if let Some(exponent) = exponent {
        let decimal = Decimal::new(negative, magnitude, exponent)?;
        return Some(Value::decimal(alloc, decimal));
    }
    let whole = magnitude.cast_signed();
    let whole = Whole::new(if negative {
        whole.checked_neg()?
    } else {
        whole
    })?;
    Some(Value::bare(alloc, Payload::Int(whole)))
}

/// Numbers stand in an entry of the tape or beside it.
#[test]
fn numbers_of_any_length_are_told_again(rt: HostRuntime) -> Result<(), Fail> {
    let alloc = rt.alloc();
    for magnitude in &[
        0,
        (1 << 63) - 1,
        1 << 63,
        (1 << 63) + 1,
        (1 << 64) - 1,
        1 << 64,
    ] {
        for exponent in &[None, Some(0), Some(i32::MIN)] {
            for negative in &[false, true] {
                let value = number(alloc, *negative, *magnitude, *exponent);
                let told = value.map(|value| is_told_again(alloc, value));
                same(&rt, (*negative, *magnitude, *exponent), told, Some(true));
            }
        }
    }
    Ok(())
}

/// Tells a number as a reader of binary does: by its body, or else read.
fn tell_number<V: Visitor>(body: &NumberBody<'_>, visitor: &mut V) -> bool {
    if let Some(went_on) = visitor.number_body(body) {
        return went_on;
    }
    match body {
        NumberBody::Decimal(octets) => match decimal_of(octets) {
            Ok(decimal) => visitor.number(Number::Decimal(decimal)),
            Err(_) => false,
        },
        NumberBody::Timestamp(octets) => match timestamp_of(octets) {
            Ok(timestamp) => visitor.number(Number::Timestamp(timestamp)),
            Err(_) => false,
        },
    }
}

/// Tells `{n:..,t:true}`, or with its fields in the other order.
fn tell_field<V: Visitor>(body: &NumberBody<'_>, reordered: bool, visitor: &mut V) -> bool {
    let truth = Part::Truth(true);
    if !visitor.open(Bracket::Fields) {
        return false;
    }
    let told = match reordered {
        false => {
            visitor.name(Some("n"))
                && tell_number(body, visitor)
                && visitor.name(Some("t"))
                && visitor.part(&truth)
        }
        true => {
            visitor.name(Some("t"))
                && visitor.part(&truth)
                && visitor.name(Some("n"))
                && tell_number(body, visitor)
        }
    };
    told && visitor.close(Bracket::Fields)
}

/// Whether a number is told as another was, and whether it is found on that one's tape where its
/// field stands before or behind another one.
fn is_same_number(alloc: Global, written: &NumberBody<'_>, body: &NumberBody<'_>) -> (bool, bool) {
    let mut tapes = Twin::new(alloc);
    let told = tell_number(written, &mut tapes.first) && tell_number(body, &mut tapes);
    let alike = told && tapes.are_same();
    tapes.clear();
    let told = tell_field(written, false, &mut tapes.first) && tell_field(body, true, &mut tapes);
    let mut following = Following::new(alloc);
    let found = (alike, told && following.finds(&tapes.first, &tapes.second));
    drop(following);
    drop(tapes);
    found
}

/// The same of octets, of two timestamps or of two decimals.
fn are_same_number(alloc: Global, timestamps: bool, written: &[u8], octets: &[u8]) -> (bool, bool) {
    if timestamps {
        return is_same_number(
            alloc,
            &NumberBody::Timestamp(written),
            &NumberBody::Timestamp(octets),
        );
    }
    is_same_number(
        alloc,
        &NumberBody::Decimal(written),
        &NumberBody::Decimal(octets),
    )
}

/// Whether octets are the same as a timestamp and as a decimal.
fn is_decimal_too(alloc: Global, octets: &[u8]) -> (bool, bool) {
    is_same_number(
        alloc,
        &NumberBody::Timestamp(octets),
        &NumberBody::Decimal(octets),
    )
}

/// A number is the same whatever its body is (Ion 1.0, "Ion Binary Encoding", decimal, timestamp):
/// a VarInt, a VarUInt and an Int may begin with octets of zeros, of which none says anything.
#[test]
fn a_decimal_is_the_same_whatever_its_body(rt: HostRuntime) -> Result<(), Fail> {
    let alloc = rt.alloc();
    let half = [0xC1, 0x05].as_slice();
    for body in &[
        [0xC1, 0x05].as_slice(),
        [0x40, 0x81, 0x05].as_slice(),
        [0xC1, 0, 0, 0, 0, 0, 0, 0, 0, 0, 0, 0, 0x05].as_slice(),
    ] {
        let found = are_same_number(alloc, false, half, body);
        same(&rt, "half", found, (true, true));
        let turned = are_same_number(alloc, false, body, half);
        same(&rt, "half, turned round", turned, (true, true));
        let alike = are_same_number(alloc, false, body, body);
        same(&rt, "the same body", alike, (true, true));
    }
    for body in &[[0xC2, 0x32].as_slice(), [0xC1, 0x85].as_slice()] {
        let found = are_same_number(alloc, false, half, body);
        same(&rt, "another", found, (false, false));
    }
    Ok(())
}

#[test]
fn a_timestamp_is_the_same_whatever_its_body(rt: HostRuntime) -> Result<(), Fail> {
    let alloc = rt.alloc();
    let year = [0xC0, 0x0F, 0xD0].as_slice();
    for body in &[
        [0xC0, 0x0F, 0xD0].as_slice(),
        [0xC0, 0, 0x0F, 0xD0].as_slice(),
    ] {
        let found = are_same_number(alloc, true, year, body);
        same(&rt, "the year 2000", found, (true, true));
        let turned = are_same_number(alloc, true, body, year);
        same(&rt, "turned round", turned, (true, true));
    }
    let next = are_same_number(alloc, true, year, [0xC0, 0x0F, 0xD1].as_slice());
    same(&rt, "the year 2001", next, (false, false));
    let decimal = is_decimal_too(alloc, year);
    same(&rt, "a decimal", decimal, (false, false));
    Ok(())
}

/// A number that is kept by its body is told as the number to who builds values.
#[test]
fn a_body_is_told_again_as_its_number(rt: HostRuntime) -> Result<(), Fail> {
    let alloc = rt.alloc();
    for body in &[
        [0xC1, 0x05].as_slice(),
        [0xC1, 0, 0, 0, 0, 0, 0, 0, 0, 0, 0, 0, 0x05].as_slice(),
    ] {
        let mut tape = Tape::new(alloc);
        let mut building = Building::new(alloc);
        let told = tell_number(&NumberBody::Decimal(body), &mut tape) && tape.tell(&mut building);
        let built = building.take();
        let half = number(alloc, false, 5, Some(-1));
        same(&rt, "half", told && built == half, true);
        drop(half);
        drop(built);
        drop(building);
        drop(tape);
    }
    Ok(())
}

/// Tells `{name:note::value}`, each of which is this symbol, at hand or by its text.
fn tell_thrice<V: Visitor>(symbol: &Symbol, at_hand: bool, visitor: &mut V) -> bool {
    if !visitor.open(Bracket::Fields) {
        return false;
    }
    let told = match (at_hand, symbol.text()) {
        (false, Some(text)) => {
            visitor.name(Some(text))
                && visitor.annotation(Some(text))
                && visitor.part(&Part::Symbol(text))
        }
        (false, None) => {
            visitor.name(None) && visitor.annotation(None) && visitor.unknown_symbol()
        }
        (true, _) => {
            visitor.symbol_name(symbol)
                && visitor.symbol_annotation(symbol)
                && visitor.symbol(symbol)
        }
    };
    told && visitor.close(Bracket::Fields)
}

/// Whether a symbol is told as another was, and whether it is found on that one's tape.
fn is_same_symbol(alloc: Global, first: (&Symbol, bool), second: (&Symbol, bool)) -> (bool, bool) {
    let mut tapes = Twin::new(alloc);
    let told = tell_thrice(first.0, first.1, &mut tapes.first)
        && tell_thrice(second.0, second.1, &mut tapes);
    let alike = told && tapes.are_same();
    let parted = tapes.part_ways();
    let mut following = Following::new(alloc);
    let found = told && parted && following.finds(&tapes.first, &tapes.second);
    drop(following);
    drop(tapes);
    (alike, found)
}

/// Whether a tape that was told a symbol tells it again as `Building` is told it at once.
fn is_symbol_again(alloc: Global, symbol: &Symbol, at_hand: bool) -> bool {
    let (mut tape, mut building) = (Tape::new(alloc), Building::new(alloc));
    let told = tell_thrice(symbol, at_hand, &mut tape) && tape.tell(&mut building);
    let again = building.take();
    let at_once = tell_thrice(symbol, at_hand, &mut building);
    let built = building.take();
    let found = told && at_once && built.is_some() && again == built;
    drop(again);
    drop(built);
    drop(building);
    drop(tape);
    found
}

/// A symbol is the same whether it is at hand or told by its text, however long that is.
#[test]
fn a_symbol_is_the_same_at_hand(rt: HostRuntime) -> Result<(), Fail> {
    let alloc = rt.alloc();
    for row in &[
        ("", "a"),
        ("twelve ones.", "twelve onez."),
        ("thirteen ones", "thirteen onez"),
        ("more than fifteen ones", "more than fifteen onez"),
    ] {
        let (symbol, other) = (Symbol::known(alloc, row.0)?, Symbol::known(alloc, row.1)?);
        for hands in &[(false, false), (false, true), (true, false), (true, true)] {
            let found = is_same_symbol(alloc, (&symbol, hands.0), (&symbol, hands.1));
            same(&rt, (row.0, *hands), found, (true, true));
            let found = is_same_symbol(alloc, (&symbol, hands.0), (&other, hands.1));
            same(&rt, (row.1, *hands), found, (false, false));
            same(&rt, row.0, is_symbol_again(alloc, &symbol, hands.0), true);
        }
        drop(symbol);
        drop(other);
    }
    let (unknown, known) = (Symbol::unknown(), Symbol::known(alloc, "thirteen ones")?);
    let found = is_same_symbol(alloc, (&unknown, true), (&unknown, false));
    same(&rt, "unknown", found, (true, true));
    let found = is_same_symbol(alloc, (&unknown, true), (&known, true));
    same(&rt, "unknown and known", found, (false, false));
    drop(unknown);
    drop(known);
    Ok(())
}
