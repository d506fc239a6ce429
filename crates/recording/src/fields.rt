// Little-endian numbers of two and of four bytes.
ghost use Rattle.std.specs.Prelude.{◌+◌, ◌≤◌, length, ◌≡◌};
ghost use Rattle.std.proofs.lemmas.List.Edits.{sets};
ghost use Rattle.recording.specs.Layout.{u16_at, u32_at};

// Two, one for each width: a generic one could only give the bytes, and each call would say `u16::from_le_bytes(fields::bytes_at(file, 0))`
// for `fields::u16_at(file, 0)`.
pub(crate) fn u16_at(file: &[u8], at: usize) -> u16
    requires { at + 2 ≤ length file.now }
    ensures { result ≡ u16_at file.now at }
{
    u16::from_le_bytes([file[at], file[at + 1]])
}

pub(crate) fn u32_at(file: &[u8], at: usize) -> u32
    requires { at + 4 ≤ length file.now }
    ensures { result ≡ u32_at file.now at }
{
    u32::from_le_bytes([file[at], file[at + 1], file[at + 2], file[at + 3]])
}

// Puts a number's bytes down, lowest first.
pub(crate) fn put<const N: usize>(destination: &mut [u8], at: usize, bytes: [u8; N])
    requires { at + N ≤ length destination.old }
    ensures { destination.new ≡ sets destination.old at bytes.entry }
{
    destination[at..at + N].copy_from_slice(&bytes);
}
