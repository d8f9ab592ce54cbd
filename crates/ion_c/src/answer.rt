//! What C is told of a call.
ghost use Rattle.std.specs.Prelude.{◌≡◌};
ghost use Rattle.ion_c.specs.Telling.{Tells};

use ion_memory::Outcome;

/// What a call found.
#[repr(C)]
#[derive(Clone, Copy, Debug)]
pub struct Answer {
    /// How many values there are (status 0), the number of the one that differs (1), or the octet
    /// that decides (2).
    pub number: u64,
    /// How many octets the text has, whether or not the buffer had room for it.
    pub length: u64,
    /// The status, 0 to 4.
    pub status: u32,
    /// Whose octets were refused: 1 the only document, 2 the left, 3 the right, 4 the catalog; else
    /// 0.
    pub whose: u32,
    /// The number of the reason of a refusal, 1 to 22, or of a fault, 1 to 6; else 0.
    pub reason: u32,
}

/// All of an outcome but its text.
pub fn answer_of(outcome: &Outcome) -> Answer
    ensures { Tells outcome.now.ending outcome.now.text.items result }
{
    Answer {
        number: outcome.ending.number(),
        length: outcome.text.len() as u64,
        status: outcome.ending.status(),
        whose: outcome.ending.whose(),
        reason: outcome.ending.reason(),
    }
}

/// Tells it, and answers the status.
pub fn tell(outcome: &Outcome, answer: &mut Answer) -> u32
    ensures told { Tells outcome.now.ending outcome.now.text.items answer.new }
    ensures status { result ≡ answer.new.status }
{
    *answer = answer_of(outcome);
    answer.status
}
