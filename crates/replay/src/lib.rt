// A list of encoded calls, run over lent tables.

#![tactic(auto)]

ghost use Rattle.std.specs.Prelude.{true, ◌≡◌, ℕ, ◌≤◌, length, replicate};
ghost use Rattle.rules.specs.Answers.{decision_of};
ghost use Rattle.rules.specs.Calls.{tables_of, request_tables_ok};
ghost use Rattle.rules.specs.Decisions.{accept};
ghost use Rattle.machine.specs.Tables.{machine_of};
ghost use Rattle.fairness.specs.Demand3.{Demand3};
ghost use Rattle.replay.specs.Encoding.{calls_in, calls_ok, call_count};
ghost use Rattle.replay.specs.Replay.{run, on_replay, Belongs};

use book;
use encoding::CALL_WORDS;
use machine;
use machine::layout::Layout;
use placement;
use placement::hinting::HINTS;
use rules::{MAP_BYTES, Refusal};

mod encoding;

// Runs the calls of a list that has passed its tests, one after the other, and writes their answers: how many.
fn run_calls(
    layout: Layout,
    cpus: &[u8],
    distances: &[u8],
    pages: &mut [u8],
    jobs: &mut [u64],
    free: &mut [u32],
    maps: &mut [u8],
    calls: &[u64],
    answers: &mut [u64],
) -> u64
    requires { (request_tables_ok (machine_of layout.counts.now cpus.now distances.now) (tables_of pages.old jobs.old free.old maps.old) ≡ true) × (calls_ok calls.now ≡ true) × (call_count calls.now ≤ length answers.old) }
    ensures { let l = layout.entry in run (accept result) (tables_of pages.new jobs.new free.new maps.new) answers.new ≡ on_replay (machine_of l.counts.now cpus.now distances.now) (tables_of pages.old jobs.old free.old maps.old) calls.now answers.old }
{
    let n = calls.len() / CALL_WORDS;
    let mut hints = [0u32; HINTS];
    let mut list = [0u8; MAP_BYTES];
    // Tried as `for (i, call) in calls.chunks(CALL_WORDS).enumerate()`: that a call has its sixteen words and that i is below the answers'
    // number stayed open.
    for i in 0..n {
        let start = CALL_WORDS * i;
        let end = start + CALL_WORDS;
        let read = encoding::read_call(&calls[start..end], &mut list);
        let answer = book::perform(
            layout,
            &mut hints,
            cpus,
            distances,
            pages,
            jobs,
            free,
            maps,
            read.call,
            read.places,
            &list,
        );
        answers[i] = encoding::answer_word(answer);
    }
    n as u64
}

// Runs every call, one after the other, and writes their answers: how many ran, or why none did.
pub fn replay(
    counts: &[u32],
    cpus: &[u8],
    distances: &[u8],
    pages: &mut [u8],
    jobs: &mut [u64],
    free: &mut [u32],
    maps: &mut [u8],
    calls: &[u64],
    answers: &mut [u64],
) -> Result<u64, Refusal>
    ensures ran { run (decision_of result) (tables_of pages.new jobs.new free.new maps.new) answers.new ≡ on_replay (machine_of counts.now cpus.now distances.now) (tables_of pages.old jobs.old free.old maps.old) calls.now answers.old }
    ensures fair { Demand3 (machine_of counts.now cpus.now distances.now) (tables_of pages.old jobs.old free.old maps.old) (calls_in calls.now) }
    ensures ledger { (k n : ℕ) → pages.old ≡ replicate k 0 → decision_of result ≡ accept n → Belongs (machine_of counts.now cpus.now distances.now) (tables_of pages.old jobs.old free.old maps.old) (calls_in calls.now) pages.new }
{
    if !machine::machine_ok(counts, cpus, distances) {
        return Err(Refusal::BadTables);
    }
    let starts = machine::starts_of(counts);
    let total = machine::pages_end(counts, &starts);
    if !placement::lent_ok(
        counts.len(),
        total,
        pages.len(),
        jobs.len(),
        free.len(),
        maps.len(),
    ) {
        return Err(Refusal::BadTables);
    }
    if !encoding::calls_ok(calls) {
        return Err(Refusal::DamagedJournal);
    }
    if answers.len() < calls.len() / CALL_WORDS {
        return Err(Refusal::OutputTooShort);
    }
    let layout = Layout {
        counts,
        starts: &starts,
    };
    Ok(run_calls(
        layout, cpus, distances, pages, jobs, free, maps, calls, answers,
    ))
}
