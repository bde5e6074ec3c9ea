// The job table: "64-bit words, six to a job", read and written per job.

ghost use Rattle.std.specs.Prelude.{◌≡◌, ◌<◌, ltb, length};
ghost use Rattle.rules.specs.Calls.{record_tables_ok, mapped_tables_ok};
ghost use Rattle.rules.specs.Records.{job_count, record_at, put_record, with_turn};
ghost use Rattle.records.specs.Jobs.{record_of, turn_of};

use super::record::Record;
use super::words;
use nodemask;
use nodemask::Mask;
use rules::{MAP_BYTES, MOST_JOBS, WORDS_PER_JOB};

// N and the length of the job table are in order.
pub fn tables_ok(nodes: usize, words: usize) -> bool
    ensures { result ≡ record_tables_ok nodes words }
{
    let jobs = words / WORDS_PER_JOB;
    nodemask::nodes_ok(nodes) & ((words % WORDS_PER_JOB == 0) & ((1 <= jobs) & (jobs <= MOST_JOBS)))
}

// And the length of the map table: "64 bytes a job".
pub fn mapped_ok(nodes: usize, words: usize, bytes: usize) -> bool
    ensures { result ≡ mapped_tables_ok nodes words bytes }
{
    if !tables_ok(nodes, words) {
        return false;
    }
    bytes == MAP_BYTES * (words / WORDS_PER_JOB)
}

// The job is one of the table's.
pub fn has_job(words: usize, job: usize) -> bool
    ensures { result ≡ ltb job (job_count words) }
{
    job < words / WORDS_PER_JOB
}

// The record of a job.
pub fn load(jobs: &[u64], job: usize) -> Record
    requires { job < job_count (length jobs.now) }
    ensures { record_of result ≡ record_at jobs.now job }
{
    let start = WORDS_PER_JOB * job;
    let end = start + WORDS_PER_JOB;
    let held = &jobs[start..end];
    let word = held[0];
    Record {
        mode: words::byte(word, 0),
        flag: words::byte(word, 1),
        len: words::byte(word, 2),
        cursor: words::byte(word, 3),
        rest: (word >> 32) as u32,
        user: Mask(held[1]),
        allowed: Mask(held[2]),
        effective: Mask(held[3]),
        low: held[4],
        high: held[5],
    }
}

// Another record for a job.
pub fn store(jobs: &mut [u64], job: usize, new: Record)
    requires { job < job_count (length jobs.old) }
    ensures { jobs.new ≡ put_record jobs.old job (record_of new) }
{
    let at = WORDS_PER_JOB * job;
    jobs[at] = words::head(new.mode, new.flag, new.len, new.cursor) | ((new.rest as u64) << 32);
    jobs[at + 1] = new.user.0;
    jobs[at + 2] = new.allowed.0;
    jobs[at + 3] = new.effective.0;
    jobs[at + 4] = new.low;
    jobs[at + 5] = new.high;
}

// Another cursor for a job, and zeros above it: one word is written.
pub fn store_cursor(jobs: &mut [u64], job: usize, cursor: u8)
    requires { job < job_count (length jobs.old) }
    ensures { jobs.new ≡ put_record jobs.old job (with_turn (record_at jobs.old job) (turn_of cursor)) }
{
    let at = WORDS_PER_JOB * job;
    jobs[at] = (jobs[at] & 0xff_ffff) | ((cursor as u64) << 24);
}
