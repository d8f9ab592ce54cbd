//! What a step of a reader comes to, said by what can be compared.
ghost use Rattle.std.specs.Prelude.{◌≡◌, ◌+◌, ◌<◌, ◌≤◌, ◌^◌, false, length, IfOk, IfErr, IsNone, MatchBool, Option};

use ion_model::Refusal;
use ion_symtab::Items;

/// How many octets a step used, whether it gave a value, and whether octets are held then.
pub type Held = (usize, bool, bool);

/// What a step uses and gives, and whether octets are held behind it; or why it refuses.
pub fn held_behind<R: Items>(reader: &mut R, octets: &[u8]) -> Result<Held, Refusal>
    requires room { IsNone (R.failed reader.old) →
        R.taken reader.old + length octets.now < 2 ^ 63 }
    requires begins { IsNone (R.awaits reader.old) }
    ensures used { IfOk result (λ held. held.0 ≤ length octets.now) }
    ensures counts { IfOk result (λ held. R.taken reader.new ≡ R.taken reader.old + held.0) }
    ensures uses_all { IfOk result (λ held. held.1 ≡ false → held.0 ≡ length octets.now) }
    ensures holds { IfOk result (λ held.
        MatchBool held.2 (0 < R.kept reader.new) (R.kept reader.new ≡ 0)) }
    ensures fails { IfErr result (λ refusal. R.failed reader.new ≡ Option.Some refusal) }
    ensures unawaited { IfErr result (λ _. IsNone (R.awaits reader.new)) }
{
    match reader.step(octets) {
        Ok(step) => {
            let (used, gives) = (step.used, step.value.is_some());
            drop(step);
            Ok((used, gives, reader.held() > 0))
        }
        Err(refusal) => Err(refusal),
    }
}
