//! The visitor that writes values as text.
ghost use Rattle.std.specs.Prelude.{◌≡◌, ◌++◌, OnOk, IsOkUnless, None, length, min, option_map, reverse, true};
ghost use Rattle.ion_text_writer.specs.Names.{IsText, between, front, lines, no_text, symbol_text, with_begun, without_lines};
ghost use Rattle.ion_symtab.specs.declared.fault.Fault.TheVariants as faults;

use crate::brackets::{bracket_close, octet_between, open_octet};
use crate::scalar::{put_known, put_numeral, put_part};
use ion_scalar::Number;
use ion_symtab::Fault;
use ion_visiting::{Bracket, Part, Visitor, number_kept, text_kept};
use std::alloc::Global;
use std::marker::Model;

/// The visitor that writes each value that it is told on a line of its own, as text in the spelling
/// of `TextWriter` (Ion 1.0, "Ion Text Encoding"). It keeps what it wrote until that is handed
/// over: `lines` are those of the values that ended, behind which stands what came of the one that
/// is open.
///
/// It answers `false` where memory was refused.
#[derive(Drop)]
pub struct TextOut {
    alloc: Global,
    /// The lines, and behind them what came of the value that is open.
    octets: Vec<u8>,
    /// How many octets the lines are.
    whole: usize,
    /// What is open, the outermost first.
    around: Vec<Bracket>,
    /// What stands before the next item.
    before: Option<u8>,
}

impl Model for TextOut {
    ghost use Rattle.std.specs.Prelude.{reverse};
    ghost use Rattle.ion_spelling.specs.TextOut.{Written};

    ghost Value = { Written };

    ghost view = { λ s. record {
      octets = s.octets.items;
      whole = s.whole;
      around = reverse s.around.items;
      before = s.before;
    } };
}

impl TextOut {
    /// Nothing yet. Takes no memory.
    pub fn new(alloc: Global) -> TextOut
        ensures { result ≡ no_text }
    {
        TextOut {
            alloc,
            octets: Vec::new(alloc),
            whole: 0,
            around: Vec::new(alloc),
            before: None,
        }
    }

    /// Nothing yet, behind these octets, which are no line.
    pub(crate) fn behind(alloc: Global, octets: Vec<u8>) -> TextOut
        ensures { result ≡ record no_text { octets = octets.items } }
    {
        TextOut {
            alloc,
            octets,
            whole: 0,
            around: Vec::new(alloc),
            before: None,
        }
    }

    /// All that is written.
    pub(crate) fn into_octets(self) -> Vec<u8>
        ensures { result.items ≡ self.octets }
    {
        let TextOut { octets, around, .. } = self;
        drop(around);
        octets
    }

    /// The lines of the values that ended, each with its LF, which `forget_lines` lets go.
    #[tactic(auto, using(std::proofs::lemmas::List::take_min))]
    pub fn lines(&self) -> &[u8]
        ensures { result.now ≡ lines self.now }
    {
        &self.octets[..self.line_ends()]
    }

    /// Lets go the lines, which were handed over, and keeps their memory for others. What came of
    /// the value that is open stays, and its line goes on.
    #[tactic(auto, using(std::proofs::lemmas::List::drop_min, std::proofs::lemmas::List::drop_all))]
    pub fn forget_lines(&mut self)
        ensures { self.new ≡ without_lines self.old }
    {
        let whole = self.line_ends();
        self.whole = 0;
        if whole == self.octets.len() {
            // Nothing is open, as behind each value that is converted.
            self.octets.clear();
            return;
        }
        let begun = self.octets.len() - whole;
        self.octets.copy_within(whole.., 0);
        self.octets.truncate(begun);
    }

    // Where the lines end, among the octets whatever was answered.
    #[inline(always)]
    fn line_ends(&self) -> usize
        ensures { result ≡ min self.now.whole (length self.now.octets) }
    {
        self.whole.min(self.octets.len())
    }

    // Appends what stands before the next item, which begins.
    #[inline(always)]
    fn begin_item(&mut self) -> bool
        ensures { result ≡ true → self.new
            ≡ record self.old { octets = front self.old; before = None } }
    {
        match self.before.take() {
            None => true,
            Some(octet) => self.octets.push(octet).is_ok(),
        }
    }

    // Appends a symbol at the front of an item, and what ends it.
    #[inline(always)]
    fn put_front(&mut self, text: Option<&str>, end: &[u8]) -> bool
        ensures written { result ≡ true → self.new
            ≡ with_begun self.old (symbol_text (option_map (λ t. t.now) text.entry) ++ end.now) }
        ensures kept { result ≡ true → IsText (option_map (λ t. t.now) text.entry) }
    {
        self.begin_item()
            && put_text(text, &mut self.octets).is_ok()
            && self.octets.extend_from_slice(end).is_ok()
    }
}

/// What stands between items where this is open.
#[inline(always)]
fn between(around: &[Bracket]) -> Option<u8>
    ensures { result ≡ between (reverse around.now) }
{
    match around.last() {
        None => None,
        Some(bracket) => Some(octet_between(*bracket)),
    }
}

/// Appends a symbol of this text, or of unknown text.
#[inline(always)]
#[tactic(auto, unfolding(ion_spelling::specs::Output::symbol_text))]
fn put_text(text: Option<&str>, out: &mut Vec<u8>) -> Result<(), Fault>
    ensures ok { OnOk result (out.new.items
        ≡ out.old.items ++ symbol_text (option_map (λ t. t.now) text.entry)) }
    ensures kept { IsText (option_map (λ t. t.now) text.entry) }
    ensures memory { IsOkUnless result faults.Memory }
{
    match text {
        None => {
            out.extend_from_slice(b"$0")?;
            Ok(())
        }
        Some(text) => {
            text_kept(text);
            put_known(text, out)
        }
    }
}

impl Visitor for TextOut {
    ghost use Rattle.ion_spelling.specs.TextOut.{Writes};

    ghost takes = { Writes };

    #[inline(always)]
    fn part(&mut self, said: &Part<'_>) -> bool {
        if !self.begin_item() || put_part(self.alloc, said, &mut self.octets).is_err() {
            return false;
        }
        self.before = between(self.around.as_slice());
        true
    }

    #[inline(always)]
    #[tactic(auto, using(crate::proofs::Transcribed::number_level))]
    fn number(&mut self, number: Number) -> bool {
        number_kept(&number);
        if !self.begin_item() || put_numeral(&number, &mut self.octets).is_err() {
            return false;
        }
        self.before = between(self.around.as_slice());
        true
    }

    #[inline(always)]
    fn unknown_symbol(&mut self) -> bool {
        if !self.begin_item() || put_text(None, &mut self.octets).is_err() {
            return false;
        }
        self.before = between(self.around.as_slice());
        true
    }

    #[inline(always)]
    fn annotation(&mut self, text: Option<&str>) -> bool {
        self.put_front(text, b"::")
    }

    #[inline(always)]
    fn name(&mut self, text: Option<&str>) -> bool {
        self.put_front(text, b":")
    }

    #[inline(always)]
    fn open(&mut self, bracket: Bracket) -> bool {
        self.begin_item()
            && self.octets.push(open_octet(bracket)).is_ok()
            && self.around.push(bracket).is_ok()
    }

    #[inline(always)]
    fn close(&mut self, bracket: Bracket) -> bool {
        if self.around.pop().is_none() {
            return false;
        }
        self.before = between(self.around.as_slice());
        self.octets.push(bracket_close(bracket)).is_ok()
    }

    #[inline(always)]
    fn ended(&mut self) -> bool {
        if self.octets.push(b'\n').is_err() {
            return false;
        }
        self.whole = self.octets.len();
        true
    }
}
