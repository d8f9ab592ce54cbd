//! The place of an octet in a text.
ghost use Rattle.std.specs.Prelude.{◌≡◌, ◌+◌, ◌≤◌, ◌⊎◌, true, false, length, IfOk, IfErr, OnOk};
ghost use Rattle.ion.specs.Names.{IsPosition};

use crate::spot::Spot;
use ion_symtab::{Fault, Inlet};

/// At most so many octets are read from a device in one call.
const PIECE: usize = 4096;

/// Where an octet of a text stands. All numbers begin with 1.
#[derive(Clone, Copy, Debug, PartialEq, Eq)]
pub struct Position {
    /// The line. A line ends with LF, CR LF or CR, which belong to it.
    pub line: u64,
    /// The octet within the line.
    pub octet: u64,
    /// The character within the line, in UTF-8: that which the octet belongs to.
    pub column: u64,
}

/// Where the octet with this number stands, counted from 1 as offsets of refusals are; where the
/// text has fewer octets, its last one, and at its front where there is none. `reader` has to stand
/// at the front of the text, and isn't read beyond that octet.
///
/// The only fault is `Read`, where the reader failed.
pub fn position_of<R: Inlet>(reader: &mut R, offset: u64) -> Result<Position, Fault>
    ensures position { IfOk result (IsPosition R.Inlet reader.old reader.new offset) }
    ensures few_calls { R.calls_made reader.new ≤ R.calls_made reader.old + offset }
    ensures few_octets { length (R.handed reader.new) ≤ length (R.handed reader.old) + offset }
    ensures no_read_failed { OnOk result
        ((reader.new ≡ reader.old) ⊎ (R.has_failed reader.new ≡ false)) }
    ensures cause { IfErr result (λ fault. (fault ≡ Fault.Read)
        × (R.has_failed reader.new ≡ true)) }
{
    let mut piece = [0; PIECE];
    let mut spot = Spot::new();
    let mut left = offset;
    while left > 0 {
        let wanted = left.min(PIECE as u64) as usize;
        match reader.read(&mut piece[..wanted]) {
            Err(_) => return Err(Fault::Read),
            Ok(0) => return Ok(spot.position()),
            Ok(count) => {
                spot.pass(&piece[..count]);
                left -= count as u64;
            }
        }
    }
    Ok(spot.position())
}
