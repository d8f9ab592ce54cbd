//! What has to come of words.
ghost use Rattle.std.specs.Prelude.{◌≡◌};

/// The words, what goes to the output and to the errors, and the status.
pub struct Row {
    pub words: &'static [&'static str],
    pub out: &'static str,
    pub err: &'static str,
    pub status: u8,
}

/// What has to come of words: what goes to the output and to the errors, and the status.
#[derive(Clone, Copy)]
pub struct Wanted<'a> {
    pub out: &'a [u8],
    pub err: &'a str,
    pub status: u8,
}

impl Row {
    /// What the row says, its output as octets.
    pub fn wanted(&self) -> Wanted<'static>
        ensures out { result.out.now ≡ self.now.out.now }
        ensures err { result.err.now ≡ self.now.err.now }
        ensures status { result.status ≡ self.now.status }
    {
        Wanted {
            out: self.out.as_bytes(),
            err: self.err,
            status: self.status,
        }
    }
}
