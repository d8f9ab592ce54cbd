//! What the scanner answers on worked rows: whole, in single octets and at every cut.
use crate::row::Row;
use ion_model::Refusal;
use ion_scalar::Number;
use ion_tokens::{Body, Mark, Place, Rest, Scan, Scanner, Token, TokenReader};
use std::alloc::{AllocError, Global};
use std::test::Fail;

/// What a scanner answered.
#[derive(Drop)]
struct Seen<'a> {
    /// The places of the tokens in turn, of which the last stands for all further.
    places: &'static [Place],
    tokens: usize,
    told: &'a mut String,
    refused: bool,
}

fn mark_text(mark: Mark) -> &'static str {
    match mark {
        Mark::FieldsOpen => "{",
        Mark::FieldsClose => "}",
        Mark::ListOpen => "[",
        Mark::ListClose => "]",
        Mark::SexpOpen => "(",
        Mark::SexpClose => ")",
        Mark::Comma => ",",
        Mark::Colon => ":",
        Mark::Colons => "::",
    }
}

/// Tells the body of a token.
fn tell_body(body: &Body<'_>, told: &mut String) -> Result<(), AllocError> {
    match body {
        Body::Word(word) => tell_word("word", word.as_str(), told),
        Body::Operator(operator) => tell_word("operator", operator.as_str(), told),
        Body::Quoted(text) => tell_word("symbol", text.as_str(), told),
        Body::Short(text) => tell_word("string", text.as_str(), told),
        Body::Long(text) => tell_word("long", text.as_str(), told),
        Body::TypedNull(kind) => tell_word("null", kind.name(), told),
        Body::Mark(mark) => tell_word("mark", mark_text(*mark), told),
        Body::Id(id) => write!(told, "id {id}"),
        Body::Number(number) => tell_number(number, told),
        Body::Clob(octets) => write!(told, "clob {:?}", octets.as_slice()),
        Body::Blob(octets) => write!(told, "blob {:?}", octets.as_slice()),
        Body::LetGo(_, gone) => write!(told, "let go {}", gone.count()),
    }
}

fn tell_word(sort: &str, text: &str, told: &mut String) -> Result<(), AllocError> {
    write!(told, "{sort} {text}")
}

fn tell_number(number: &Number, told: &mut String) -> Result<(), AllocError> {
    match number {
        Number::Int(whole) => write!(told, "int {}", whole.get()),
        Number::Decimal(decimal) => {
            let (magnitude, exponent) = (decimal.magnitude(), decimal.exponent());
            write!(told, "decimal {magnitude} {exponent}")
        }
        Number::Timestamp(_) => told.push_str("timestamp"),
    }
}

/// Tells a token with its span.
fn tell_token(token: &Token<'_>, told: &mut String) -> Result<(), AllocError> {
    write!(told, "{}-{} ", token.start, token.end)?;
    tell_body(&token.body, told)?;
    told.push_str("; ")
}

impl Seen<'_> {
    fn refusal(&mut self, refusal: Refusal) -> Result<(), AllocError> {
        self.refused = true;
        write!(self.told, "{} {}", refusal.offset, refusal.reason.name())
    }

    /// Tells a token, and lets it go.
    fn take(&mut self, token: Token<'_>) -> Result<(), AllocError> {
        self.tokens = self.tokens.saturating_add(1);
        let told = tell_token(&token, self.told);
        drop(token);
        told
    }

    /// Where the next token stands.
    fn place(&self) -> Place {
        match self.places.get(self.tokens) {
            Some(place) => *place,
            None => self.places.last().copied().unwrap_or(Place::Top),
        }
    }

    /// Takes up octets up to the next token; how many, and whether there may be a further one.
    fn step(&mut self, scanner: &mut Scanner, piece: &[u8]) -> Result<(usize, bool), Fail> {
        if scanner.used() > 1 << 40 || piece.len() > 1 << 40 {
            return Err("long".into());
        }
        match scanner.step(piece, self.place()) {
            Err(refusal) => {
                self.refusal(refusal)?;
                Ok((0, false))
            }
            Ok(Scan { used, token }) => match token {
                None => Ok((used, false)),
                Some(token) => {
                    self.take(token)?;
                    Ok((used, true))
                }
            },
        }
    }

    /// Takes up a piece, unless there was a refusal.
    fn take_up(&mut self, scanner: &mut Scanner, piece: &[u8]) -> Result<(), Fail> {
        if self.refused {
            return Ok(());
        }
        let mut at: usize = 0;
        for _ in 0..1000 {
            let (used, goes_on) = self.step(scanner, piece.get(at..).unwrap_or(&[]))?;
            if !goes_on {
                return Ok(());
            }
            at = at.saturating_add(used);
        }
        Err("no end".into())
    }

    /// Takes up two pieces, or octets one by one.
    fn take_cut(
        &mut self,
        scanner: &mut Scanner,
        octets: &[u8],
        cut: Option<usize>,
    ) -> Result<(), Fail> {
        if let Some(cut) = cut {
            self.take_up(scanner, octets.get(..cut).unwrap_or(&[]))?;
            return self.take_up(scanner, octets.get(cut..).unwrap_or(&[]));
        }
        for octet in octets {
            self.take_up(scanner, &[*octet])?;
        }
        Ok(())
    }

    /// Ends, unless there was a refusal.
    fn end(&mut self, scanner: Scanner) -> Result<(), AllocError> {
        if self.refused {
            drop(scanner);
            return Ok(());
        }
        match scanner.finish(self.place()) {
            Err(refusal) => self.refusal(refusal),
            Ok(None) => self.told.push_str("end"),
            Ok(Some(token)) => {
                self.take(token)?;
                self.told.push_str("end")
            }
        }
    }
}

/// The places of the tokens in turn, of which the last stands for all further.
fn places(name: &str) -> &'static [Place] {
    match name {
        "sexp" => &[Place::Top, Place::Sexp],
        "in sexp" => &[Place::Sexp],
        "struct" => &[Place::Top, Place::Name, Place::Name, Place::FieldValue],
        _ => &[Place::Top],
    }
}

/// The cuts at which long octets are tried.
const FEW_CUTS: &[usize] = &[0, 1, 2, 3, 5, 800, 999, 1002, 2000];

/// Where they stand: `top`; `in sexp`, in an s-expression; `sexp`, the first at the top and the
/// others in an s-expression; `struct`, the first at the top, the name and the value of a field |
/// octets | each token with its span, then `end` or the refusal.
pub fn scans(alloc: Global, row: Row<'_>, octets: &[u8]) -> Result<(), Fail> {
    for cut in 0..=octets.len() {
        if octets.len() < 1000 || FEW_CUTS.contains(&cut) {
            shows(alloc, row, octets, Some(cut))?;
        }
    }
    shows(alloc, row, octets, None)
}

/// Fails, where a scanner shows anything else of the octets in two pieces, or one by one.
fn shows(alloc: Global, row: Row<'_>, octets: &[u8], cut: Option<usize>) -> Result<(), Fail> {
    let mut told = String::new(alloc);
    let mut scanner = Scanner::new(alloc);
    let mut seen = Seen {
        places: places(row.field(0)),
        tokens: 0,
        told: &mut told,
        refused: false,
    };
    match seen.take_cut(&mut scanner, octets, cut) {
        Ok(()) => seen.end(scanner)?,
        Err(fail) => {
            drop(scanner);
            return Err(fail);
        }
    }
    row.wants_octets(alloc, 2, told.as_bytes())
}

/// `found` | octets | how many of them the token at their front has, `before` where it is the octet
/// behind it that shows its end, and the token; or `none`. It is looked for twice by one reader.
pub fn is_found(alloc: Global, row: Row<'_>, octets: &[u8]) -> Result<(), Fail> {
    let mut told = String::new(alloc);
    let mut tokens = TokenReader::new(alloc);
    let found = match tell_found(&mut tokens, octets, &mut told) {
        Ok(()) => tell_found(&mut tokens, octets, &mut told),
        Err(fail) => Err(fail),
    };
    drop(tokens);
    found?;
    row.wants_octets(alloc, 2, told.as_bytes())
}

/// Tells the token at the front.
fn tell_found(tokens: &mut TokenReader, octets: &[u8], told: &mut String) -> Result<(), Fail> {
    told.clear();
    let rest = Rest {
        start: 0,
        used: 0,
        colon: false,
    };
    if octets.len() > 1 << 40 {
        return Err("long".into());
    }
    let Some(token) = tokens.token(Place::List, rest, octets) else {
        return Ok(told.push_str("none")?);
    };
    let before = if token.left { " before" } else { "" };
    write!(told, "{}{before} ", token.count)?;
    let body = tokens.body(token.kind)?;
    let tried = tell_body(&body, told);
    drop(body);
    Ok(tried?)
}
