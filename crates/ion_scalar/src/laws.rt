//! What the definitions that this crate's contracts name have to do with the specification. A law
//! is called for its clause alone.
ghost use Rattle.std.specs.Prelude.{◌≡◌, ◌↔◌, ◌≤◌, ◌++◌, ◌+ℤ◌, ℕ, ℤ, pos, Bool, List, Result, Ok, length};
ghost use Rattle.ion_scalar.specs.Names.{AreBelow, DecimalParts, InYears, IsDecimal, IsDecimalField, IsFloat, IsMinute, IsNumber, IsOffset, IsTimestamp, IsTimestampBody, IsWhole, Minute, Number, ReadsDecimalBody, ReadsNumber, ReadsTimestampBody, ReadsVarInt, ReadsVarUInt, Reason, TimestampParts, VarInt, VarUInt, decimal_octets, decimal_of_body, int_magnitude, int_negative, int_octets, last_year, minute_number, moved, number_text, positional, signed_of, timestamp_octets, timestamp_of_body, uint_octets, var_int, var_int_octets, var_uint, var_uint_octets};
ghost use Rattle.ion_scalar.specs.declared.number.Number.TheVariants as numbers;
ghost use Rattle.ion_scalar.specs.text.Reading.{number_read};
ghost use Rattle.ion_scalar.specs.binary.laws.DescriptorRows.{IsTable};

/// Octets that begin with a VarUInt are read as its number and its length, whatever follows it.
pub fn var_uint_is_read()
    ensures { (w rest : List ℕ) (n : ℕ) → VarUInt w n → var_uint (w ++ rest) ≡ Ok (n, length w) }
{}

/// Each answer of reading a VarUInt tells what the octets are.
pub fn var_uint_answers()
    ensures { (octets : List ℕ) → ReadsVarUInt octets (var_uint octets) }
{}

/// Octets begin with one VarUInt at most.
pub fn one_var_uint()
    ensures { (w v x y : List ℕ) (n m : ℕ) → VarUInt w n → VarUInt v m → w ++ x ≡ v ++ y → (n ≡ m)
        × (length w ≡ length v) }
{}

/// Octets that begin with a VarInt are read as its sign, magnitude and length, whatever follows it.
pub fn var_int_is_read()
    ensures { (w rest : List ℕ) (negative : Bool) (n : ℕ) → VarInt w negative n
        → var_int (w ++ rest) ≡ Ok (signed_of negative n, length w) }
{}

/// Each answer of reading a VarInt tells what the octets are.
pub fn var_int_answers()
    ensures { (octets : List ℕ) → ReadsVarInt octets (var_int octets) }
{}

/// The body of a decimal that is kept is read as that decimal.
pub fn decimal_is_read()
    ensures { (body : List ℕ) (d : DecimalParts) → IsDecimalField body d → IsDecimal d
        → decimal_of_body body ≡ Ok d }
{}

/// Each answer of reading the body of a decimal tells what the octets are.
pub fn decimal_answers()
    ensures { (body : List ℕ) → ReadsDecimalBody body (decimal_of_body body) }
{}

/// The body of a timestamp is read as that timestamp.
pub fn timestamp_is_read()
    ensures { (body : List ℕ) (t : TimestampParts) → IsTimestampBody body t → timestamp_of_body body
        ≡ Ok t }
{}

/// Each answer of reading the body of a timestamp tells what the octets are.
pub fn timestamp_answers()
    ensures { (body : List ℕ) → ReadsTimestampBody body (timestamp_of_body body) }
{}

/// A minute that is moved by less than a day is one of the years 1 to 9999 just where it lies in
/// them, and then its number is moved by as much.
pub fn moved_by_number()
    ensures number { (m : Minute) (by : ℤ) → IsMinute m → IsOffset by
        → InYears (pos (minute_number m) +ℤ by)
        → IsMinute (moved m by) × (pos (minute_number (moved m by)) ≡ pos (minute_number m) +ℤ by) }
    ensures years { (m : Minute) (by : ℤ) → IsMinute m → IsOffset by → 1 ≤ (moved m by).date.year
        → (moved m by).date.year ≤ last_year
        → InYears (pos (minute_number m) +ℤ by) }
{}

/// No spelling of a number has fewer octets than the one that is written; nor has a body of a
/// decimal or of a timestamp.
pub fn fewest()
    ensures var_uint { (w : List ℕ) (n : ℕ) → AreBelow 256 w → VarUInt w n
        → length (var_uint_octets n) ≤ length w }
    ensures var_int { (w : List ℕ) (negative : Bool) (n : ℕ) → AreBelow 256 w → VarInt w negative n
        → length (var_int_octets negative n) ≤ length w }
    ensures uint { (w : List ℕ) → AreBelow 256 w → length (uint_octets (positional 256 w)) ≤ length
        w }
    ensures int { (w : List ℕ) → AreBelow 256 w
        → length (int_octets (int_negative w) (int_magnitude w)) ≤ length w }
    ensures decimal { (w : List ℕ) (d : DecimalParts) → AreBelow 256 w → IsDecimalField w d
        → length (decimal_octets d) ≤ length w }
    ensures timestamp { (w : List ℕ) (t : TimestampParts) → AreBelow 256 w → IsTimestampBody w t
        → length (timestamp_octets t) ≤ length w }
{}

/// The descriptors are the printed table.
pub fn descriptor_table()
    ensures { IsTable }
{}

/// A token spells one number at most, and none if it is a float.
pub fn one_number()
    ensures one { (token : List ℕ) (x y : Number) → IsNumber token x → IsNumber token y → x ≡ y }
    ensures float { (token : List ℕ) (x : Number) → IsNumber token x → IsFloat token → ⊥ }
{}

/// Reading a token has one answer, which `number_read` gives as a function of its octets.
pub fn number_answers()
    ensures { (token : List ℕ) (answer : Result Number Reason)
        → ReadsNumber token answer ↔ (answer ≡ number_read token) }
{}

/// The text of a number that is kept is read as that number.
pub fn text_is_read()
    ensures int { (z : ℤ) → IsWhole z
        → ReadsNumber (number_text (numbers.Int z)) (Ok (numbers.Int z)) }
    ensures decimal { (d : DecimalParts) → IsDecimal d
        → ReadsNumber (number_text (numbers.Decimal d)) (Ok (numbers.Decimal d)) }
    ensures timestamp { (t : TimestampParts) → IsTimestamp t
        → ReadsNumber (number_text (numbers.Timestamp t)) (Ok (numbers.Timestamp t)) }
{}
