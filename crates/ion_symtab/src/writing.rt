//! Writing octets whole, however few a device takes at a time.
ghost use Rattle.std.specs.Prelude.{◌≡◌, true, false, [], IfErr, OnOk, OnErr};
ghost use Rattle.ion_symtab.specs.Took.{Took, TookFront};

use crate::fault::Fault;
use crate::outlet::Outlet;

/// Writes all of `octets`, in as many writes as the device wants; none where there are no octets.
///
/// `Write`, and no other fault, where a write failed. The device has then taken some first octets
/// of them, and nothing else.
pub fn write_whole<W: Outlet>(writer: &mut W, octets: &[u8]) -> Result<(), Fault>
    ensures whole { OnOk result (Took W.took W.written writer.old writer.new octets.now) }
    ensures no_write_failed { OnOk result (W.has_failed writer.old ≡ false →
        W.has_failed writer.new ≡ false) }
    ensures front { OnErr result (TookFront W.took W.written writer.old writer.new octets.now) }
    ensures not_passed { W.passed writer.new ≡ W.passed writer.old }
    ensures cause { IfErr result (λ fault. (fault ≡ Fault.Write)
        × (W.has_failed writer.new ≡ true)) }
{
    let mut at = 0;
    while at < octets.len() {
        match writer.write(&octets[at..]) {
            Err(_) => return Err(Fault::Write),
            Ok(count) => at += count,
        }
    }
    Ok(())
}

/// Makes the device pass on all that it took.
///
/// `Write`, and no other fault, where the flush failed. On both answers what was taken stays.
pub fn flushed<W: Outlet>(writer: &mut W) -> Result<(), Fault>
    ensures passed_on { OnOk result (W.passed writer.new ≡ W.written writer.new) }
    ensures no_write_failed { OnOk result (W.has_failed writer.new ≡ false) }
    ensures kept { Took W.took W.written writer.old writer.new [] }
    ensures not_passed { OnErr result (W.passed writer.new ≡ W.passed writer.old) }
    ensures cause { IfErr result (λ fault. (fault ≡ Fault.Write)
        × (W.has_failed writer.new ≡ true)) }
{
    writer.flush().map_err(|_| Fault::Write)
}
