// The records of a journal, one after the other.

ghost use Rattle.std.specs.Prelude.{true, ◌≡◌, ◌≤◌, length};
ghost use Rattle.rules.specs.Machine.{Machine};
ghost use Rattle.rules.specs.Calls.{Tables, tables_of, request_tables_ok};
ghost use Rattle.rules.specs.Journal.{machine_in};
ghost use Rattle.machine.specs.Tables.{machine_of};
ghost use Rattle.placement.specs.Hints.{Hints};
ghost use Rattle.journal.specs.Opening.{Opened};
ghost use Rattle.journal.specs.Parts.{answer_size, run_of, is_ready, one_record, put_into, on_part};
ghost use Rattle.journal.specs.Passes.{passed};

use super::answer::{ANSWER_SIZE, fault, line};
use super::opening::{cpu_bytes, distance_bytes, page_counts};
use super::reading::byte_at;
use super::record::{places_in, read_record, whole};
use book;
use machine;
use machine::layout::Layout;
use placement::hinting::HINTS;
use rules::Refusal;

// What a part of a run comes to: the bytes of the records that it did and those of their answers, and whether the run goes on. All three
// hold at damage too, so no `Option` stands for the last one.
#[derive(Clone, Copy)]
pub struct Part {
    pub read: usize,
    pub written: usize,
    pub more: bool,
}

// The record that the input starts with: "A bad mark, kind, unused byte or short record .. ends" the run.
fn run_record(
    layout: Layout,
    hints: &mut [u32; HINTS],
    cpus: &[u8],
    distances: &[u8],
    pages: &mut [u8],
    jobs: &mut [u64],
    free: &mut [u32],
    maps: &mut [u8],
    input: &[u8],
    output: &mut [u8],
) -> Part
    requires { (request_tables_ok (machine_of layout.counts.now cpus.now distances.now) (tables_of pages.old jobs.old free.old maps.old) ≡ true) × (answer_size ≤ length output.old) × Hints layout.counts.now pages.old hints.old }
    ensures did { let l = layout.entry in passed result (tables_of pages.new jobs.new free.new maps.new) output.new ≡ put_into output.old (one_record (machine_of l.counts.now cpus.now distances.now) (tables_of pages.old jobs.old free.old maps.old) input.now) }
    ensures kept { Hints layout.entry.counts.now pages.new hints.new }
{
    match read_record(input) {
        Some(entry) => {
            let places = places_in(input);
            let answer = book::perform(
                layout,
                hints,
                cpus,
                distances,
                pages,
                jobs,
                free,
                maps,
                entry.call,
                places,
                &input[..0],
            );
            let bytes = line(entry.kind, answer);
            Part {
                read: entry.size,
                written: rules::copy(&bytes, output),
                more: true,
            }
        }
        None => {
            let bytes = fault(Refusal::DamagedJournal);
            Part {
                read: 0,
                written: rules::copy(&bytes, output),
                more: false,
            }
        }
    }
}

// Can the record that the input starts with be done? It is whole, or the input has ended and it is a short one.
fn ready(input: &[u8], ended: bool) -> bool
    ensures { result ≡ is_ready ended input.now }
{
    whole(input) | (ended & (input.len() != 0))
}

// The records at the start of the input, as far as the output has room for their answers.
fn run_records(
    layout: Layout,
    hints: &mut [u32; HINTS],
    cpus: &[u8],
    distances: &[u8],
    pages: &mut [u8],
    jobs: &mut [u64],
    free: &mut [u32],
    maps: &mut [u8],
    input: &[u8],
    ended: bool,
    output: &mut [u8],
) -> Part
    requires { (request_tables_ok (machine_of layout.counts.now cpus.now distances.now) (tables_of pages.old jobs.old free.old maps.old) ≡ true) × Hints layout.counts.now pages.old hints.old }
    ensures { let l = layout.entry in passed result (tables_of pages.new jobs.new free.new maps.new) output.new ≡ on_part (machine_of l.counts.now cpus.now distances.now) (tables_of pages.old jobs.old free.old maps.old) input.now ended output.old }
{
    let mut at = 0;
    let mut written = 0;
    // A walk by the records' sizes, which no range or slice counts.
    while ready(&input[at..], ended) & (ANSWER_SIZE <= output.len() - written) {
        let one = run_record(
            layout,
            hints,
            cpus,
            distances,
            pages,
            jobs,
            free,
            maps,
            &input[at..],
            &mut output[written..],
        );
        at += one.read;
        written += one.written;
        if !one.more {
            return Part {
                read: at,
                written,
                more: false,
            };
        }
    }
    Part {
        read: at,
        written,
        more: true,
    }
}

// A part of a run: the machine is in the machine record. A record that is not yet whole is left for the bytes that follow, unless the input
// has ended: then it is a short record.
pub fn run_part(
    opening: &[u8],
    pages: &mut [u8],
    jobs: &mut [u64],
    free: &mut [u32],
    maps: &mut [u8],
    input: &[u8],
    ended: bool,
    output: &mut [u8],
) -> Part
    requires { Opened opening.now (tables_of pages.old jobs.old free.old maps.old) }
    ensures { passed result (tables_of pages.new jobs.new free.new maps.new) output.new ≡ on_part (machine_in opening.now) (tables_of pages.old jobs.old free.old maps.old) input.now ended output.old }
{
    let n = byte_at(opening, 3);
    let all = page_counts(opening);
    let counts = &all[..n];
    let cpus = cpu_bytes(opening);
    let distances = distance_bytes(opening);
    let starts = machine::starts_of(counts);
    let layout = Layout {
        counts,
        starts: &starts,
    };
    let mut hints = [0u32; HINTS];
    run_records(
        layout, &mut hints, cpus, distances, pages, jobs, free, maps, input, ended, output,
    )
}

// The bytes that the answers to all records take: their form alone decides it.
pub fn answers_size(input: &[u8]) -> usize
    ensures { (m : Machine) (t : Tables) → result ≡ length (run_of m t input.now) }
{
    let mut at = 0;
    let mut size = 0;
    // A walk by the records' sizes, which no range or slice counts.
    while at < input.len() {
        size += ANSWER_SIZE;
        match read_record(&input[at..]) {
            Some(entry) => at += entry.size,
            None => return size,
        }
    }
    size
}
