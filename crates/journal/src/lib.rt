// The journal program: document 01, "The journal program". Its bytes, its records, and a whole journal.

#![tactic(auto)]

ghost use Rattle.std.specs.Prelude.{◌≡◌, cond, ◌++◌, ◌*◌, ◌≤◌, ◌<◌, ltb, length, drop, replicate};
ghost use Rattle.rules.specs.Decisions.{accept};
ghost use Rattle.rules.specs.Masks.{most_nodes};
ghost use Rattle.rules.specs.Records.{words_per_job, most_jobs};
ghost use Rattle.rules.specs.Maps.{map_size, no_node, identity_maps};
ghost use Rattle.rules.specs.Journal.{journal_pages, opening, journal, write_journal};
ghost use Rattle.journal.specs.Whole.{written_as};

use answer::ANSWER_SIZE;
use opening::PAGES;
use rules::{MAP_BYTES, MOST_JOBS, NO_NODE, Refusal, WORDS_PER_JOB};

pub mod answer;
pub mod opening;
pub mod reading;
pub mod record;
pub mod run;

// "at most 16,384 pages", all of them free.
pub fn free_pages() -> [u8; PAGES]
    ensures { result ≡ replicate journal_pages 0 }
{
    [0; PAGES]
}

// "64 fresh jobs"
pub fn fresh_jobs() -> [u64; WORDS_PER_JOB * MOST_JOBS]
    ensures { result ≡ replicate (words_per_job * most_jobs) 0 }
{
    [0; WORDS_PER_JOB * MOST_JOBS]
}

// "map 0 to N-1": entry a of it, and FF from entry N on.
fn identity_entry(nodes: usize, a: usize) -> u8
    requires { a < map_size }
    ensures { result ≡ cond (ltb a nodes) a no_node }
{
    if a < nodes {
        return a as u8;
    }
    NO_NODE
}

// "Journal jobs have map 0 to N-1": the map table of 64 of them.
pub fn identity_maps(nodes: usize) -> [u8; MAP_BYTES * MOST_JOBS]
    requires { nodes ≤ most_nodes }
    ensures { result ≡ identity_maps nodes most_jobs }
{
    let mut maps = [NO_NODE; MAP_BYTES * MOST_JOBS];
    for (i, entry) in maps.iter_mut().enumerate() {
        *entry = identity_entry(nodes, i % MAP_BYTES);
    }
    maps
}

// The answers to the records after a good machine record, in an output that has room for them. All pages are free at first:
// the free counts are the page counts.
fn run_all(input: &[u8], size: usize, output: &mut [u8]) -> usize
    requires { (opening input.now ≡ accept size) × (length (journal input.now) ≤ length output.old) }
    ensures { (result ≡ length (journal input.now)) × (output.new ≡ journal input.now ++ drop result output.old) }
{
    let total = opening::total_pages(input);
    let mut pages = free_pages();
    let mut jobs = fresh_jobs();
    let nodes = reading::byte_at(input, 3);
    let mut free = opening::page_counts(input);
    let mut maps = identity_maps(nodes);
    let part = run::run_part(
        input,
        &mut pages[..total],
        &mut jobs,
        &mut free[..nodes],
        &mut maps,
        &input[size..],
        true,
        output,
    );
    part.written
}

// A whole journal: its answers, put at the start of the output.
pub fn journal(input: &[u8], output: &mut [u8]) -> Result<u64, Refusal>
    ensures { written_as result output.new ≡ write_journal input.now output.old }
{
    let opened = opening::verdict(input);
    match opened {
        Ok(size) => {
            let start = size as usize;
            if output.len() < run::answers_size(&input[start..]) {
                return Err(Refusal::OutputTooShort);
            }
            Ok(run_all(input, start, output) as u64)
        }
        Err(why) => {
            if output.len() < ANSWER_SIZE {
                return Err(Refusal::OutputTooShort);
            }
            let fault = answer::fault(why);
            Ok(rules::copy(&fault, output) as u64)
        }
    }
}
