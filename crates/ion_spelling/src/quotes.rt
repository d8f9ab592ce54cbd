//! What stands around texts and octets of clobs (Ion 1.0, "Ion Text Encoding").

/// What stands around a text, and so what is escaped in it.
#[derive(Clone, Copy)]
pub struct Quotes {
    /// The octet before and behind the text.
    pub delimiter: u8,
    /// Whether octets from 80 on are escaped.
    pub ascii: bool,
}
