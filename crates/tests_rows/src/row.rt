//! A row of a table: fields between bars, the first of them what is tried and one of the others the
//! answer wanted.
use std::alloc::Global;
use std::test::Fail;

/// A line of a table.
#[derive(Clone, Copy)]
pub struct Row<'a> {
    line: &'a str,
}

impl<'a> Row<'a> {
    /// The row of a line; none of an empty line and a comment.
    pub fn of(line: &'a str) -> Option<Row<'a>> {
        if line.trim().is_empty() || line.starts_with('#') {
            return None;
        }
        Some(Row { line })
    }

    /// The field of this number without the blanks around it; the empty text, where the row has
    /// fewer fields.
    pub fn field(self, number: usize) -> &'a str {
        match self.line.split('|').nth(number) {
            Some(field) => field.trim(),
            None => "",
        }
    }

    /// The octets that a field spells: `M`, a version marker; two hexadecimal digits, an octet; a
    /// text between backquotes, in which `␊` stands for a line feed and so on; and `1000*` before a
    /// text, the text so many times.
    pub fn octets(self, alloc: Global, number: usize) -> Result<Vec<u8>, Fail> {
        let mut octets = Vec::new(alloc);
        put_field(self.field(number), &mut octets)?;
        Ok(octets)
    }

    /// The word of a field that follows this one there.
    pub fn word_behind(self, number: usize, name: &str) -> Option<&'a str> {
        let mut is_behind = false;
        for word in self.field(number).split_whitespace() {
            if is_behind {
                return Some(word);
            }
            is_behind = word == name;
        }
        None
    }

    /// The same as a number; the usual one, where there is none.
    pub fn number_behind(self, number: usize, name: &str, usual: u64) -> Result<u64, Fail> {
        match self.word_behind(number, name) {
            Some(word) => Ok(word.parse::<u64>()?),
            None => Ok(usual),
        }
    }

    /// Fails, where the field is another answer.
    pub fn wants(self, number: usize, answer: &str) -> Result<(), Fail> {
        are_so(self.field(number) == answer, answer.as_bytes())
    }

    /// Fails, where the field spells other octets.
    pub fn wants_octets(self, alloc: Global, number: usize, answer: &[u8]) -> Result<(), Fail> {
        let wanted = self.octets(alloc, number)?;
        are_so(wanted.as_slice() == answer, answer)
    }
}

/// Fails, where octets are not what is wanted.
pub fn are_so(is_so: bool, answer: &[u8]) -> Result<(), Fail> {
    if is_so {
        return Ok(());
    }
    let text = str::from_utf8(answer).unwrap_or("no text");
    Err(Fail::new(format_args!("not so, but: {text} {answer:?}")))
}

/// Puts the octets that a field spells.
fn put_field(field: &str, octets: &mut Vec<u8>) -> Result<(), Fail> {
    let mut times: u32 = 1;
    for (index, piece) in field.split('`').enumerate() {
        if index % 2 == 0 {
            times = put_words(piece, octets)?;
        } else {
            put_text(piece, times, octets)?;
        }
    }
    Ok(())
}

/// Puts the octets of the words outside backquotes; how many times the text behind them is meant.
fn put_words(words: &str, octets: &mut Vec<u8>) -> Result<u32, Fail> {
    let mut times = 1;
    for word in words.split_whitespace() {
        match word.strip_suffix('*') {
            Some(number) => times = number.parse::<u32>()?,
            None => put_word(word, octets)?,
        }
    }
    Ok(times)
}

/// Puts a version marker, or the octet of two digits.
fn put_word(word: &str, octets: &mut Vec<u8>) -> Result<(), Fail> {
    if word == "M" {
        octets.extend_from_slice(&[0xE0, 0x01, 0x00, 0xEA])?;
    } else {
        octets.push(u8::from_str_radix(word, 16)?)?;
    }
    Ok(())
}

/// Puts a text so many times, with the control characters that its pictures stand for.
fn put_text(pictures: &str, times: u32, octets: &mut Vec<u8>) -> Result<(), Fail> {
    for _ in 0..times {
        for picture in pictures.chars() {
            let character = meant_by(picture);
            octets.extend_from_slice(character.encode_utf8(&mut [0; 4]).as_bytes())?;
        }
    }
    Ok(())
}

/// The control character that a picture stands for; any other character stands for itself.
fn meant_by(picture: char) -> char {
    let code = picture as u32;
    match code {
        0x2400..=0x241F => char::from_u32(code - 0x2400).unwrap_or(picture),
        0x2421 => '\u{7F}',
        _ => picture,
    }
}
