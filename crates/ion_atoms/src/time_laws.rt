//! Laws of the calendar and of timestamps. Each stands on an empty function: its contract is the
//! law.
ghost use Rattle.std.specs.Prelude.{◌≡◌, ◌≤◌, ◌-ℤ◌, pos};
ghost use Rattle.jiff.specs.Words.{epoch_day, IsYmd};
ghost use Rattle.jiff_core.specs.declared.civil.date.Date.{Date as CivilDate};
ghost use Rattle.ion_atoms.specs.declared.calendar.Date.{Date};
ghost use Rattle.ion_atoms.specs.declared.calendar.Minute.{Minute};
ghost use Rattle.ion_atoms.specs.Calendar.{IsDate, IsMinute, InYears, day_number, minute_number, first_day, last_day};
ghost use Rattle.ion_atoms.specs.Timestamps.{TimestampParts, IsTimestamp, instant};

/// The days of the years 1 to 9999 have numbers from that of 0001-01-01 to that of 9999-12-31, and
/// no two have one number.
pub fn days_by_number()
    ensures first { (d : Date) → IsDate d → first_day ≤ day_number d }
    ensures last { (d : Date) → IsDate d → day_number d ≤ last_day }
    ensures one { (d e : Date) → IsDate d → IsDate e → day_number d ≡ day_number e → d ≡ e }
{}

/// The same of the minutes of those years.
pub fn minutes_by_number()
    ensures within { (m : Minute) → IsMinute m → InYears (pos (minute_number m)) }
    ensures one { (m n : Minute) → IsMinute m → IsMinute n → minute_number m ≡ minute_number n
        → m ≡ n }
{}

/// Day numbers are those of `jiff`, which counts from the first of January 1970 on.
pub fn as_jiff()
    ensures { let first : Date = record { year = 1970; month = 1; day = 1 } in
        (d : Date) (c : CivilDate) → IsDate d → IsYmd (pos d.year) (pos d.month) (pos d.day) c
        → epoch_day c ≡ pos (day_number d) -ℤ pos (day_number first) }
{}

/// Timestamps of one precision, one offset and one instant are one: they agree in the local fields
/// too.
pub fn timestamps_by_instant()
    ensures { (s t : TimestampParts) → IsTimestamp s → IsTimestamp t
        → s.precision ≡ t.precision → s.offset ≡ t.offset → instant s ≡ instant t → s ≡ t }
{}
