//! Texts in the buffers of callers.
ghost use Rattle.std.specs.Prelude.{◌≡◌};
ghost use Rattle.ion_c.specs.Telling.{laid};

/// Puts the text at the front of the buffer where it has room for all of it, and else changes
/// nothing.
pub fn lay(text: &[u8], buffer: &mut [u8])
    ensures { buffer.new ≡ laid text.now buffer.old }
{
    let count = text.len();
    if count <= buffer.len() {
        buffer[..count].copy_from_slice(text);
    }
}
