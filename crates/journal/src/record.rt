// A record: whether it is there to its end, and the call in it.

ghost use Rattle.std.specs.Prelude.{true, ◌≡◌, ◌&&◌, ◌+◌, ◌-◌, ◌≤◌, ◌<◌, length};
ghost use Rattle.rules.specs.Records.{places_per_job};
ghost use Rattle.rules.specs.Journal.{byte_at, number, part, kind_of, size_of, read_record};
ghost use Rattle.journal.specs.Reads.{Reads, zeroed};
ghost use Rattle.journal.specs.Parts.{is_whole};

use super::reading::{byte_at, marked, part, u32_at, u64_at};
use book::Call;
use rules::PLACES_PER_JOB;

// What is read of a good record. The places of an install are in `places_in`.
// The kind stays a byte: `answer::line` puts it back as it came, and an enum, made of the byte and turned into it again, is no plainer.
#[derive(Clone, Copy)]
pub struct Entry {
    pub kind: u8,
    pub size: usize,
    pub call: Call,
}

// No record is shorter: "Then 32-byte records".
pub const SHORTEST: usize = 32;

// The size of a record, by the number of its kind. The rules' `size_of` has that argument too and gives each kind 32: the clause names it.
fn size_of(kind: u8) -> usize
    ensures { result ≡ size_of (kind_of kind) }
{
    32
}

// Is the record that the bytes start with there to its end?
pub fn whole(bytes: &[u8]) -> bool
    ensures tells { result ≡ is_whole bytes.now }
    ensures long { result ≡ true → 32 ≤ length bytes.now }
{
    if bytes.len() < SHORTEST {
        return false;
    }
    size_of(bytes[2]) <= bytes.len()
}

// Of the eight bytes at a place, those from k on are zero: by one shift, with no loop, which one over the bytes would need.
fn zero_from(bytes: &[u8], at: usize, k: usize) -> bool
    requires { (at + 8 ≤ length bytes.now) × (k < 8) }
    ensures { result ≡ zeroed (at + k) (8 - k) bytes.now }
{
    u64_at(bytes, at) >> (8 * k) == 0
}

// The places from len on are zero: two numbers of eight bytes and no loop. An `all` over the bytes from there needs a cut at 16 first, and
// is no plainer.
fn places_zero(bytes: &[u8], len: usize) -> bool
    requires { 32 ≤ length bytes.now }
    ensures { result ≡ zeroed (16 + len) (16 - len) bytes.now }
{
    if len < 8 {
        return zero_from(bytes, 16, len) & zero_from(bytes, 24, 0);
    }
    if len < 16 {
        return zero_from(bytes, 24, len - 8);
    }
    true
}

// Of the first eight bytes those from `first` on are zero, of the next eight those from `second` on, and so are all places.
fn rest_zero(bytes: &[u8], first: usize, second: usize) -> bool
    requires { (32 ≤ length bytes.now) × (first < 8) × (second < 8) }
    ensures { result ≡ (zeroed first (8 - first) bytes.now && zeroed (8 + second) (8 - second) bytes.now && zeroed 16 16 bytes.now) }
{
    zero_from(bytes, 0, first) & zero_from(bytes, 8, second) & places_zero(bytes, 0)
}

// The install in a record.
fn install_in(bytes: &[u8]) -> Call
    requires { 32 ≤ length bytes.now }
    ensures { result ≡ Call.Install (byte_at bytes.now 3) (byte_at bytes.now 5) (byte_at bytes.now 6) (number 8 8 bytes.now) (byte_at bytes.now 7) }
{
    let job = byte_at(bytes, 3);
    let mode = byte_at(bytes, 5) as u64;
    let flag = byte_at(bytes, 6) as u64;
    let len = byte_at(bytes, 7);
    let mask = u64_at(bytes, 8);
    Call::Install {
        job,
        mode,
        flag,
        mask,
        len,
    }
}

// The record that the bytes start with: "A bad mark, kind, unused byte or short record" is damage, of which nothing is read.
pub fn read_record(bytes: &[u8]) -> Option<Entry>
    ensures { Reads result (part 16 places_per_job bytes.now) (read_record bytes.now) }
{
    if !whole(bytes) {
        return None;
    }
    if !marked(bytes) {
        return None;
    }
    let kind = bytes[2];
    let job = byte_at(bytes, 3);
    let (call, unused) = match kind {
        1 => {
            let cpu = byte_at(bytes, 4);
            (Call::Request { job, cpu }, rest_zero(bytes, 5, 0))
        }
        2 => {
            let page = u32_at(bytes, 8) as usize;
            (Call::Release { job, page }, rest_zero(bytes, 4, 4))
        }
        3 => {
            let allowed = u64_at(bytes, 8);
            let unused = zero_from(bytes, 0, 4) & places_zero(bytes, 0);
            (Call::Rebind { job, allowed }, unused)
        }
        4 => {
            let unused = (bytes[4] == 0) & places_zero(bytes, byte_at(bytes, 7));
            (install_in(bytes), unused)
        }
        5 => (Call::Clear { job }, rest_zero(bytes, 4, 0)),
        _ => return None,
    };
    let size = size_of(kind);
    unused.then_some(Entry { kind, size, call })
}

// "places in 16-31"
pub fn places_in(bytes: &[u8]) -> [u8; PLACES_PER_JOB]
    requires { 32 ≤ length bytes.now }
    ensures { result ≡ part 16 places_per_job bytes.now }
{
    part(bytes, 16)
}
