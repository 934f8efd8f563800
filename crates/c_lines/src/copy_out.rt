// Bytes in the buffer of a caller.
ghost use Rattle.std.specs.Prelude.{◌≡◌};
ghost use Rattle.c_lines.specs.Imports.{Ok};
ghost use Rattle.c_lines.specs.Buffers.{buffer_after, needed_after, put_told};

use crate::refusal::Refusal;

/// Copies bytes to the front of a buffer that has room for them, and tells how many they are. Where it has none it stays as it is.
pub(crate) fn copy_out(bytes: &[u8], buffer: &mut [u8], needed: &mut usize) -> Result<(), Refusal>
    ensures told { result ≡ put_told (Ok bytes.now) buffer.old }
    ensures buffer { buffer.new ≡ buffer_after (Ok bytes.now) buffer.old }
    ensures needed { needed.new ≡ needed_after (Ok bytes.now) needed.old }
{
    *needed = bytes.len();
    if bytes.len() > buffer.len() {
        return Err(Refusal::NoRoom);
    }
    buffer[..bytes.len()].copy_from_slice(bytes);
    Ok(())
}
