// The machine record, with which a journal opens.

ghost use Rattle.std.specs.Prelude.{◌≡◌, true, ◌&&◌, ◌≤◌, length, take, leb};
ghost use Rattle.rules.specs.Answers.{decision_of};
ghost use Rattle.rules.specs.Basics.{sum};
ghost use Rattle.rules.specs.Machine.{machine_ok};
ghost use Rattle.rules.specs.Journal.{byte_at, head_size, head_ok, counts_ok, machine_size, machine_in, journal_pages, opening};
ghost use Rattle.journal.specs.Opening.{opening_size};

use super::reading::{byte_at, marked, u16_at};
use rules::Refusal;

// "at most 16,384 pages"
pub const PAGES: usize = 16384;

// The longest machine record: 16 nodes and 64 CPUs.
pub const LONGEST: usize = 358;

// The six head bytes are there and undamaged.
pub fn head_ok(bytes: &[u8]) -> bool
    ensures { result ≡ head_ok bytes.now }
{
    if bytes.len() < 6 {
        return false;
    }
    marked(bytes) & (bytes[2] == 0) & (bytes[5] == 0)
}

// "N (1 to 16), CPU count (1 to 64)"
pub fn counts_ok(bytes: &[u8]) -> bool
    requires { head_size ≤ length bytes.now }
    ensures { result ≡ counts_ok bytes.now }
{
    ((1 <= bytes[3]) & (bytes[3] <= 16)) & ((1 <= bytes[4]) & (bytes[4] <= 64))
}

// "then N 16-bit page counts, the CPU bytes, the distances": the bytes of the whole record.
pub fn machine_size(bytes: &[u8]) -> usize
    requires { head_size ≤ length bytes.now }
    ensures { result ≡ machine_size bytes.now }
{
    let n = byte_at(bytes, 3);
    let cpus = byte_at(bytes, 4);
    6 + 2 * n + cpus + n * n
}

// The page counts: the first N of these.
pub fn page_counts(bytes: &[u8]) -> [u32; 16]
    requires { (counts_ok bytes.now ≡ true) × (machine_size bytes.now ≤ length bytes.now) }
    ensures { take (byte_at bytes.now 3) result ≡ (machine_in bytes.now).page_counts }
{
    let mut counts = [0u32; 16];
    let n = byte_at(bytes, 3);
    for (i, count) in counts[..n].iter_mut().enumerate() {
        *count = u32::from(u16_at(bytes, 6 + 2 * i));
    }
    counts
}

// The CPU bytes.
pub fn cpu_bytes(bytes: &[u8]) -> &[u8]
    requires { machine_size bytes.now ≤ length bytes.now }
    ensures { result.now ≡ (machine_in bytes.now).cpu_nodes }
{
    let start = 6 + 2 * byte_at(bytes, 3);
    let end = start + byte_at(bytes, 4);
    &bytes[start..end]
}

// The distances.
pub fn distance_bytes(bytes: &[u8]) -> &[u8]
    requires { machine_size bytes.now ≤ length bytes.now }
    ensures { result.now ≡ (machine_in bytes.now).distances }
{
    let n = byte_at(bytes, 3);
    let start = 6 + 2 * n + byte_at(bytes, 4);
    let end = start + n * n;
    &bytes[start..end]
}

// How many pages the machine has.
pub fn total_pages(bytes: &[u8]) -> usize
    requires { (counts_ok bytes.now ≡ true) × (machine_size bytes.now ≤ length bytes.now) }
    ensures { result ≡ sum (machine_in bytes.now).page_counts }
{
    let n = byte_at(bytes, 3);
    let all = page_counts(bytes);
    machine::total_pages(&all[..n])
}

// "the other rules": the machine is in order, with "at most 16,384 pages".
pub fn machine_ok(bytes: &[u8]) -> bool
    requires { (counts_ok bytes.now ≡ true) × (machine_size bytes.now ≤ length bytes.now) }
    ensures { result ≡ (machine_ok (machine_in bytes.now) && leb (sum (machine_in bytes.now).page_counts) journal_pages) }
{
    let n = byte_at(bytes, 3);
    let all = page_counts(bytes);
    let counts = &all[..n];
    let few = machine::total_pages(counts) <= PAGES;
    machine::machine_ok(counts, cpu_bytes(bytes), distance_bytes(bytes)) & few
}

// "the six head bytes' 13, then N and CPU count, then shortness, then the other rules": the size of a good machine record.
pub fn verdict(bytes: &[u8]) -> Result<u64, Refusal>
    ensures { decision_of result ≡ opening bytes.now }
{
    if !head_ok(bytes) {
        return Err(Refusal::DamagedJournal);
    }
    if !counts_ok(bytes) {
        return Err(Refusal::BadTables);
    }
    let size = machine_size(bytes);
    if bytes.len() < size {
        return Err(Refusal::DamagedJournal);
    }
    if !machine_ok(bytes) {
        return Err(Refusal::BadTables);
    }
    Ok(size as u64)
}

// How many bytes the verdict goes by, as the six head bytes say.
pub fn opening_size(bytes: &[u8]) -> usize
    requires { head_size ≤ length bytes.now }
    ensures { (result ≡ opening_size bytes.now) × (head_size ≤ result) × (result ≤ 358) }
{
    if !counts_ok(bytes) {
        return 6;
    }
    machine_size(bytes)
}
