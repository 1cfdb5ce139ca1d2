// Little-endian fields of bytes (System V gABI, "Data Representation", ELFDATA2LSB).

ghost use Rattle.std.specs.Prelude.{◌≡◌, ◌+◌, ◌≤◌, length};
ghost use Rattle.zc_base.specs.Fields.{half_in, word_in, with_half, with_word};

use byteorder::{ByteOrder, LittleEndian};

/// The half at an offset.
pub fn u16_at(bytes: &[u8], at: usize) -> u16
    requires { at + 2 ≤ length bytes.now }
    ensures { result ≡ half_in bytes.now at }
{
    LittleEndian::read_u16(&bytes[at..])
}

/// The word at an offset.
pub fn u32_at(bytes: &[u8], at: usize) -> u32
    requires { at + 4 ≤ length bytes.now }
    ensures { result ≡ word_in bytes.now at }
{
    LittleEndian::read_u32(&bytes[at..])
}

/// Writes a half at an offset, and leaves all other bytes unchanged.
pub fn put_u16(bytes: &mut [u8], at: usize, v: u16)
    requires { at + 2 ≤ length bytes.old }
    ensures { bytes.new ≡ with_half bytes.old at v }
{
    LittleEndian::write_u16(&mut bytes[at..], v);
}

/// Writes a word at an offset, and leaves all other bytes unchanged.
pub fn put_u32(bytes: &mut [u8], at: usize, v: u32)
    requires { at + 4 ≤ length bytes.old }
    ensures { bytes.new ≡ with_word bytes.old at v }
{
    LittleEndian::write_u32(&mut bytes[at..], v);
}
