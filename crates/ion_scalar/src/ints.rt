//! The sign of a number token.
ghost use Rattle.std.specs.Prelude.{◌≡◌, ◌++◌};
ghost use Rattle.ion_scalar.specs.Names.{BeginsWithMinus, minus};

/// Whether a token begins with `-`, and what stands behind it.
pub fn split_sign(token: &[u8]) -> (bool, &[u8])
    ensures octets { token.now ≡ minus result.0 ++ result.1.now }
    ensures sign { BeginsWithMinus result.0 token.now }
{
    match token {
        [b'-', body @ ..] => (true, body),
        _ => (false, token),
    }
}
