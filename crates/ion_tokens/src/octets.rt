//! Classes of octets (Ion 1.0, "Ion Text Encoding").
ghost use Rattle.std.specs.Prelude.{◌≡◌, IfSome, ◌<◌};
ghost use Rattle.ion_tokens.specs.Names.{begins_word, hexadecimal_digit, is_base64, is_digit, is_letter, is_line_end, is_lower, is_operator_octet, is_stop, is_upper, is_white, is_word_octet};
ghost use Rattle.ion_tokens.specs.Octets.{escaped};

/// Tab, LF, VT, FF, CR and space.
pub fn is_white(octet: u8) -> bool
    ensures { result ≡ is_white octet }
{
    (b'\t' <= octet && octet <= b'\r') || octet == b' '
}

/// What ends a line comment.
pub fn is_line_end(octet: u8) -> bool
    ensures { result ≡ is_line_end octet }
{
    octet == b'\n' || octet == b'\r'
}

pub fn is_digit(octet: u8) -> bool
    ensures { result ≡ is_digit octet }
{
    b'0' <= octet && octet <= b'9'
}

fn is_upper(octet: u8) -> bool
    ensures { result ≡ is_upper octet }
{
    b'A' <= octet && octet <= b'Z'
}

fn is_lower(octet: u8) -> bool
    ensures { result ≡ is_lower octet }
{
    b'a' <= octet && octet <= b'z'
}

fn is_letter(octet: u8) -> bool
    ensures { result ≡ is_letter octet }
{
    is_upper(octet) || is_lower(octet)
}

/// What a word may begin with.
pub fn begins_word(octet: u8) -> bool
    ensures { result ≡ begins_word octet }
{
    is_letter(octet) || octet == b'_' || octet == b'$'
}

/// What a word may go on with.
pub fn is_word_octet(octet: u8) -> bool
    ensures { result ≡ is_word_octet octet }
{
    begins_word(octet) || is_digit(octet)
}

/// The nineteen characters of operators.
pub fn is_operator_octet(octet: u8) -> bool
    ensures { result ≡ is_operator_octet octet }
{
    matches!(
        octet,
        b'!' | b'#'
            | b'%'
            | b'&'
            | b'*'
            | b'+'
            | b'-'
            | b'.'
            | b'/'
            | b';'
            | b'<'
            | b'='
            | b'>'
            | b'?'
            | b'@'
            | b'^'
            | b'`'
            | b'|'
            | b'~'
    )
}

/// What ends a number, beside a comment.
#[inline(always)]
pub fn is_stop(octet: u8) -> bool
    ensures { result ≡ is_stop octet }
{
    matches!(
        octet,
        b',' | b' ' | b'\t'..=b'\r' | b'{' | b'}' | b'[' | b']' | b'(' | b')' | b'"' | b'\''
    )
}

/// The alphabet and the padding of base64 (RFC 4648, section 4).
pub fn is_base64(octet: u8) -> bool
    ensures { result ≡ is_base64 octet }
{
    is_letter(octet) || is_digit(octet) || matches!(octet, b'+' | b'/' | b'=')
}

/// The value of a hexadecimal digit in either case.
pub fn hexadecimal_digit(octet: u8) -> Option<u8>
    ensures value { result ≡ hexadecimal_digit octet }
    ensures small { IfSome result (λ digit. digit < 16) }
{
    match octet {
        b'0'..=b'9' => Some(octet - b'0'),
        b'A'..=b'F' => Some(octet - b'A' + 10),
        b'a'..=b'f' => Some(octet - b'a' + 10),
        _ => None,
    }
}

/// The octet that a letter behind a backslash means.
pub fn escaped(octet: u8) -> Option<u8>
    ensures { result ≡ escaped octet }
{
    match octet {
        b'0' => Some(0),
        b'a' => Some(7),
        b'b' => Some(8),
        b't' => Some(b'\t'),
        b'n' => Some(b'\n'),
        b'f' => Some(12),
        b'r' => Some(b'\r'),
        b'v' => Some(11),
        b'"' | b'\'' | b'?' | b'\\' | b'/' => Some(octet),
        _ => None,
    }
}
