// The words of a record: the fields of word 0 by shifts and masks, and sixteen places in two words.

ghost use Rattle.std.specs.Prelude.{◌≡◌, ◌++◌, ◌+◌, ◌*◌, ◌/◌, ◌%◌, ◌^◌, ◌<◌, ◌≤◌, take, drop, replicate};
ghost use Rattle.rules.specs.Records.{places_per_job, bytes_of, from_bytes};

use rules::{PLACES_PER_JOB, Place};

// Byte k of a word, lowest first. By a shift and a mask, as `head`, and not by `to_le_bytes`: so a rule of the project has it for word 0.
pub fn byte(word: u64, k: usize) -> u8
    requires { k < 8 }
    ensures { result ≡ word / 2 ^ (8 * k) % 256 }
{
    ((word >> (8 * k)) & 255) as u8
}

// Word 0 of a record whose unused bits are zero.
pub fn head(mode: u8, flag: u8, len: u8, cursor: u8) -> u64
    ensures { result ≡ mode + flag * 2 ^ 8 + len * 2 ^ 16 + cursor * 2 ^ 24 }
{
    (mode as u64) | ((flag as u64) << 8) | ((len as u64) << 16) | ((cursor as u64) << 24)
}

// The sixteen places of words 4 and 5.
pub fn unpack(low: u64, high: u64) -> [u8; PLACES_PER_JOB]
    ensures { result ≡ bytes_of 8 low ++ bytes_of 8 high }
{
    let mut out = [0u8; PLACES_PER_JOB];
    out[..8].copy_from_slice(&low.to_le_bytes());
    out[8..].copy_from_slice(&high.to_le_bytes());
    out
}

// Eight of the places, from one on, as a word.
pub fn pack(places: [u8; PLACES_PER_JOB], from: Place) -> u64
    requires { from.0 ≤ 8 }
    ensures { result ≡ from_bytes (take 8 (drop from.0 places)) }
{
    let start = from.0 as usize;
    let mut bytes = [0u8; 8];
    bytes.copy_from_slice(&places[start..start + 8]);
    u64::from_le_bytes(bytes)
}

// The first sixteen of a list of places; zeros past its end.
pub fn padded(places: &[u8]) -> [u8; PLACES_PER_JOB]
    ensures { result ≡ take places_per_job (places.now ++ replicate places_per_job 0) }
{
    let mut out = [0u8; PLACES_PER_JOB];
    rules::copy_first(places, &mut out);
    out
}
