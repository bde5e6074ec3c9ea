// The library for hosts in C and Rust: each public call, with its answer in numbers.

#![tactic(auto)]

ghost use Rattle.std.specs.Prelude.{◌≡◌, ℕ, replicate};
ghost use Rattle.rules.specs.Answers.{numbers_in, number_in, in_numbers, order_numbers_in, part_of, told, told_of};
ghost use Rattle.rules.specs.Calls.{Tables, tables_of, with_records, with_pages, with_jobs, on_request, on_release, on_fresh, on_install, on_rebind, on_clear, on_keep, on_set_map};
ghost use Rattle.rules.specs.Drain.{on_drain};
ghost use Rattle.rules.specs.Journal.{write_journal};
ghost use Rattle.rules.specs.Near.{on_near};
ghost use Rattle.rules.specs.Notes.{name_part, note_places, write_note};
ghost use Rattle.rules.specs.Reasons.{on_reasons};
ghost use Rattle.rules.specs.Records.{policy};
ghost use Rattle.rules.specs.Text.{read_text, write_text};
ghost use Rattle.machine.specs.Tables.{machine_of};
ghost use Rattle.fairness.specs.Demand3.{Demand3};
ghost use Rattle.replay.specs.Encoding.{calls_in};
ghost use Rattle.replay.specs.Replay.{on_replay, Belongs};
ghost use Rattle.spirerivet.specs.Told.{told_output, told_written, told_listing, told_run, told_replay, told_drain};

use drain;
use journal;
use machine::listing;
use nodelist;
use notes;
use placement;
use reasons;
use records;
use records::mapping;
use replay;
use rules::{Number, Numbers, OrderNumbers, Part};

// A page for a job from a CPU.
#[unsafe(no_mangle)]
pub extern "C" fn spire_request(
    counts: &[u32],
    cpus: &[u8],
    distances: &[u8],
    pages: &mut [u8],
    jobs: &mut [u64],
    free: &mut [u32],
    maps: &[u8],
    job: usize,
    cpu: usize,
) -> Numbers
    ensures { told (numbers_in result) (tables_of pages.new jobs.new free.new maps.now) ≡ told_of (on_request (machine_of counts.now cpus.now distances.now) (tables_of pages.old jobs.old free.old maps.now) job cpu) }
{
    Numbers::from(placement::request(counts, cpus, distances, pages, jobs, free, maps, job, cpu))
}

// A page given back by its job.
#[unsafe(no_mangle)]
pub extern "C" fn spire_release(
    counts: &[u32],
    pages: &mut [u8],
    jobs: &[u64],
    free: &mut [u32],
    maps: &[u8],
    job: usize,
    page: usize,
) -> Numbers
    ensures { told (numbers_in result) (tables_of pages.new jobs.now free.new maps.now) ≡ told_of (on_release counts.now (tables_of pages.old jobs.now free.old maps.now) job page) }
{
    Numbers::from(placement::release(counts, pages, jobs, free, maps, job, page))
}

// Every page of the machine made free, and the free counts made.
#[unsafe(no_mangle)]
pub extern "C" fn spire_fresh(counts: &[u32], pages: &mut [u8], free: &mut [u32]) -> Numbers
    ensures { (t : Tables) → told (numbers_in result) (with_pages t pages.new free.new) ≡ told_of (on_fresh counts.now (with_pages t pages.old free.old)) }
{
    Numbers::from(placement::fresh(counts, pages, free))
}

// A job's policy: its mode, flag, user mask or places.
#[unsafe(no_mangle)]
pub extern "C" fn spire_install(
    nodes: usize,
    jobs: &mut [u64],
    maps: &[u8],
    job: usize,
    mode: u64,
    flag: u64,
    mask: u64,
    places: &[u8],
) -> Numbers
    ensures { (t : Tables) → told (numbers_in result) (with_jobs t jobs.new maps.now) ≡ told_of (on_install nodes (with_jobs t jobs.old maps.now) job (policy mode flag mask places.now)) }
{
    Numbers::from(records::install(nodes, jobs, maps, job, mode, flag, mask, places))
}

// A job's allowed nodes.
#[unsafe(no_mangle)]
pub extern "C" fn spire_rebind(nodes: usize, jobs: &mut [u64], job: usize, allowed: u64) -> Numbers
    ensures { (t : Tables) → told (numbers_in result) (with_records t jobs.new) ≡ told_of (on_rebind nodes (with_records t jobs.old) job allowed) }
{
    Numbers::from(records::rebind(nodes, jobs, job, allowed))
}

// A job's record made fresh.
#[unsafe(no_mangle)]
pub extern "C" fn spire_clear(nodes: usize, jobs: &mut [u64], job: usize) -> Numbers
    ensures { (t : Tables) → told (numbers_in result) (with_records t jobs.new) ≡ told_of (on_clear nodes (with_records t jobs.old) job) }
{
    Numbers::from(records::clear(nodes, jobs, job))
}

// The tenant's call: the nodes of its map that a job keeps.
#[unsafe(no_mangle)]
pub extern "C" fn spire_keep_nodes(
    nodes: usize,
    jobs: &[u64],
    maps: &mut [u8],
    job: usize,
    kept: &[u8],
) -> Numbers
    ensures { (t : Tables) → told (numbers_in result) (with_jobs t jobs.now maps.new) ≡ told_of (on_keep nodes (with_jobs t jobs.now maps.old) job kept.now) }
{
    Numbers::from(mapping::keep_nodes(nodes, jobs, maps, job, kept))
}

// The administrator's call: the nodes of a job's map.
#[unsafe(no_mangle)]
pub extern "C" fn spire_set_map(
    nodes: usize,
    jobs: &[u64],
    maps: &mut [u8],
    job: usize,
    list: &[u8],
) -> Numbers
    ensures { (t : Tables) → told (numbers_in result) (with_jobs t jobs.now maps.new) ≡ told_of (on_set_map nodes (with_jobs t jobs.now maps.old) job list.now) }
{
    Numbers::from(mapping::set_map(nodes, jobs, maps, job, list))
}

// The mask of the nodes that a text names.
#[unsafe(no_mangle)]
pub extern "C" fn spire_read_nodes(nodes: usize, allowed: u64, text: &[u8]) -> Number
    ensures { number_in result ≡ in_numbers (read_text nodes allowed text.now) }
{
    Number::from(nodelist::read_nodes(nodes, allowed, text))
}

// The text of a mask at the start of the output, and its length.
#[unsafe(no_mangle)]
pub extern "C" fn spire_write_nodes(nodes: usize, mask: u64, out: &mut [u8]) -> Number
    ensures { told_output (number_in result) out.new ≡ told_written (write_text nodes mask out.old) }
{
    Number::from(nodelist::write_nodes(nodes, mask, out))
}

// The k-th name of a note: which part of the note it is.
#[unsafe(no_mangle)]
pub extern "C" fn spire_name(note: &[u8], k: usize) -> Part
    ensures { part_of result ≡ name_part note.now k }
{
    notes::name_part(note, k)
}

// A note's list as places for a job at the start of the output, and how many: 0 for the text list, else the data list.
#[unsafe(no_mangle)]
pub extern "C" fn spire_note_places(
    nodes: usize,
    jobs: &[u64],
    maps: &[u8],
    names: &[u8],
    note: &[u8],
    job: usize,
    which: u64,
    out: &mut [u8],
) -> Number
    ensures { told_output (number_in result) out.new ≡ told_written (note_places nodes jobs.now maps.now names.now note.now job which out.old) }
{
    Number::from(notes::note_places(nodes, jobs, maps, names, note, job, which, out))
}

// The note of a text and a data list at the start of the output, and its length.
#[unsafe(no_mangle)]
pub extern "C" fn spire_write_note(text: &[u8], data: &[u8], out: &mut [u8]) -> Number
    ensures { told_output (number_in result) out.new ≡ told_written (write_note text.now «data».now out.old) }
{
    Number::from(notes::write_note(text, data, out))
}

// near(x) over a set of nodes at the start of the output: how many nodes, and in how many rounds.
#[unsafe(no_mangle)]
pub extern "C" fn spire_near(
    nodes: usize,
    distances: &[u8],
    set: u64,
    node: usize,
    out: &mut [u8],
) -> OrderNumbers
    ensures { told_output (order_numbers_in result) out.new ≡ told_listing (on_near nodes distances.now set node out.old) }
{
    OrderNumbers::from(listing::list_near(nodes, distances, set, node, out))
}

// The reason of each node of the machine at a request of a job from a CPU, a byte each at the start of the output, and how many.
#[unsafe(no_mangle)]
pub extern "C" fn spire_reasons(
    counts: &[u32],
    cpus: &[u8],
    distances: &[u8],
    pages: &[u8],
    jobs: &[u64],
    free: &[u32],
    maps: &[u8],
    job: usize,
    cpu: usize,
    out: &mut [u8],
) -> Number
    ensures { told_output (number_in result) out.new ≡ told_written (on_reasons (machine_of counts.now cpus.now distances.now) (tables_of pages.now jobs.now free.now maps.now) job cpu out.old) }
{
    Number::from(reasons::write_reasons(
        counts, cpus, distances, pages, jobs, free, maps, job, cpu, out,
    ))
}

// Every held page of a node moved to other nodes: how many, and the pairs of pages, old then new, at the start of the output.
#[unsafe(no_mangle)]
pub extern "C" fn spire_drain(
    counts: &[u32],
    distances: &[u8],
    pages: &mut [u8],
    jobs: &[u64],
    free: &mut [u32],
    maps: &[u8],
    node: usize,
    moves: &mut [u32],
) -> Number
    ensures { told_run (number_in result) (tables_of pages.new jobs.now free.new maps.now) moves.new ≡ told_drain (on_drain counts.now distances.now node (tables_of pages.old jobs.now free.old maps.now) moves.old) }
{
    Number::from(drain::drain(counts, distances, pages, jobs, free, maps, node, moves))
}

// A list of calls, one after the other; their answers go to the output.
#[unsafe(no_mangle)]
pub extern "C" fn spire_replay(
    counts: &[u32],
    cpus: &[u8],
    distances: &[u8],
    pages: &mut [u8],
    jobs: &mut [u64],
    free: &mut [u32],
    maps: &mut [u8],
    calls: &[u64],
    answers: &mut [u64],
) -> Number
    ensures ran { told_run (number_in result) (tables_of pages.new jobs.new free.new maps.new) answers.new ≡ told_replay (on_replay (machine_of counts.now cpus.now distances.now) (tables_of pages.old jobs.old free.old maps.old) calls.now answers.old) }
    ensures fair { Demand3 (machine_of counts.now cpus.now distances.now) (tables_of pages.old jobs.old free.old maps.old) (calls_in calls.now) }
    ensures ledger { (k : ℕ) → pages.old ≡ replicate k 0 → result.refusal ≡ 0 → Belongs (machine_of counts.now cpus.now distances.now) (tables_of pages.old jobs.old free.old maps.old) (calls_in calls.now) pages.new }
{
    Number::from(replay::replay(
        counts, cpus, distances, pages, jobs, free, maps, calls, answers,
    ))
}

// A whole journal; its answers at the start of the output, and their length.
#[unsafe(no_mangle)]
pub extern "C" fn spire_journal(input: &[u8], output: &mut [u8]) -> Number
    ensures { told_output (number_in result) output.new ≡ told_written (write_journal input.now output.old) }
{
    Number::from(journal::journal(input, output))
}
