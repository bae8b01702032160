// Reading from a file in memory, and writing over it.
ghost use Rattle.std.specs.Prelude.{◌≡◌, ◌≤◌, ◌+◌, length, slice_range, OnOk, OnErr};
ghost use Rattle.zb_disk.specs.Disk.{overwritten};

use std::alloc::AllocError;

/// Fills the piece with the bytes of the file from `at` on.
pub fn copy_out(file: &[u8], at: u64, piece: &mut [u8])
    requires { at + length piece.old ≤ length file.now }
    ensures { piece.new ≡ slice_range file.now at (at + length piece.old) }
{
    let start = at as usize;
    piece.copy_from_slice(&file[start..start + piece.len()]);
}

/// Writes the piece over the file from `at` on, and past its end.
pub fn overwrite(file: &mut Vec<u8>, at: u64, piece: &[u8]) -> Result<(), AllocError>
    requires { at ≤ length file.old.items }
    ensures ok { OnOk result (file.new.items ≡ overwritten file.old.items at piece.now) }
    ensures err { OnErr result (file.new.items ≡ file.old.items) }
{
    let start = at as usize;
    let inside = piece.len().min(file.len() - start);
    file.extend_from_slice(&piece[inside..])?;
    put(file.as_mut_slice(), start, &piece[..inside]);
    Ok(())
}

// Puts the piece in the place of the bytes from `start` on.
fn put(file: &mut [u8], start: usize, piece: &[u8])
    requires { start + length piece.now ≤ length file.old }
    ensures { file.new ≡ overwritten file.old start piece.now }
{
    file[start..start + piece.len()].copy_from_slice(piece);
}
