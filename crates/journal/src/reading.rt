// Numbers and marks in bytes: "numbers little-endian".

ghost use Rattle.std.specs.Prelude.{◌≡◌, ◌+◌, ◌≤◌, ◌<◌, length};
ghost use Rattle.rules.specs.Journal.{byte_at, number, part, marked};

// "mark 4E 50": the first two bytes.
pub fn marked(bytes: &[u8]) -> bool
    requires { 2 ≤ length bytes.now }
    ensures { result ≡ marked bytes.now }
{
    (bytes[0] == 0x4E) & (bytes[1] == 0x50)
}

// The byte at a place, as a count.
pub fn byte_at(bytes: &[u8], at: usize) -> usize
    requires { at < length bytes.now }
    ensures { (result ≡ byte_at bytes.now at) × (result < 256) }
{
    bytes[at] as usize
}

// The N bytes at a place.
pub fn part<const N: usize>(bytes: &[u8], at: usize) -> [u8; N]
    requires { at + N ≤ length bytes.now }
    ensures { result ≡ part at N bytes.now }
{
    let mut part = [0; N];
    part.copy_from_slice(&bytes[at..at + N]);
    part
}

// The numbers of 16, 32 and 64 bits at a place stay three: no trait names `from_le_bytes` for all types, and one of our own with three
// `impl`s is no plainer.

// The 16-bit number at a place.
pub fn u16_at(bytes: &[u8], at: usize) -> u16
    requires { at + 2 ≤ length bytes.now }
    ensures { result ≡ number at 2 bytes.now }
{
    u16::from_le_bytes(part(bytes, at))
}

// The 32-bit number at a place.
pub fn u32_at(bytes: &[u8], at: usize) -> u32
    requires { at + 4 ≤ length bytes.now }
    ensures { result ≡ number at 4 bytes.now }
{
    u32::from_le_bytes(part(bytes, at))
}

// The 64-bit number at a place.
pub fn u64_at(bytes: &[u8], at: usize) -> u64
    requires { at + 8 ≤ length bytes.now }
    ensures { result ≡ number at 8 bytes.now }
{
    u64::from_le_bytes(part(bytes, at))
}
