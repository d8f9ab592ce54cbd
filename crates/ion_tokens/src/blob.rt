//! Base64 of blobs (RFC 4648, section 4).
ghost use Rattle.std.specs.Prelude.{◌≡◌, true, false, IfOk, None, Some};
ghost use Rattle.ion_tokens.specs.Names.{blob_of};

use base64::DecodeAllocError;
use base64::engine::general_purpose::STANDARD;
use std::alloc::AllocError;

/// Whether a text stands for octets, which then replace what is in the buffer: padding is required,
/// and unused bits must be 0.
pub fn decoded(text: &[u8], octets: &mut Vec<u8>) -> Result<bool, AllocError>
    ensures some { IfOk result (λ found. found ≡ true → blob_of text.now ≡ Some octets.new.items) }
    ensures none { IfOk result (λ found. found ≡ false → blob_of text.now ≡ None) }
{
    octets.clear();
    match STANDARD.decode_vec(text, octets) {
        Ok(()) => Ok(true),
        Err(DecodeAllocError::OutOfMemory) => Err(AllocError),
        Err(DecodeAllocError::DecodeError(_)) => Ok(false),
    }
}
