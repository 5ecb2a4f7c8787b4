// Numbers high byte first: the one writer of bytes, and a reader a width. For the crates above: each requires that the bytes are
// there.
ghost use Rattle.std.specs.Prelude.{◌≡◌, ◌+◌, ◌≤◌, length};
ghost use Rattle.packet_table.specs.Numbers.{number_at, written};

pub fn read_u16(d: &[u8], at: usize) -> u16
    requires { at + 2 ≤ length d.now }
    ensures { result ≡ number_at 2 d.now at }
{
    u16::from_be_bytes([d[at], d[at + 1]])
}

pub fn read_u32(d: &[u8], at: usize) -> u32
    requires { at + 4 ≤ length d.now }
    ensures { result ≡ number_at 4 d.now at }
{
    u32::from_be_bytes([d[at], d[at + 1], d[at + 2], d[at + 3]])
}

// A number goes as its `to_be_bytes`, and a byte as `[n]`.
pub fn write<const N: usize>(output: &mut [u8], at: usize, field: [u8; N])
    requires { at + N ≤ length output.old }
    ensures { output.new ≡ written at field.entry output.old }
{
    output[at..at + N].copy_from_slice(&field);
}
