// The book: one call, by value, on the lent tables.

#![tactic(auto)]

ghost use Rattle.std.specs.Prelude.{true, ◌≡◌};
ghost use Rattle.rules.specs.Answers.{answer_of};
ghost use Rattle.rules.specs.Calls.{tables_of, outcome, request_tables_ok};
ghost use Rattle.rules.specs.Book.{Call as LawCall, step};
ghost use Rattle.machine.specs.Tables.{machine_of};
ghost use Rattle.placement.specs.Hints.{Hints};
ghost use Rattle.book.specs.Says.{Says};

use machine::layout::Layout;
use placement::hinting::HINTS;
use records;
use records::policy::AppPolicy;
use rules::{Answer, PLACES_PER_JOB};

mod hints;
mod lists;

// A call. The places of an install stand beside it, sixteen of them with zeros behind the list, and so does the list of a call that sets a
// map; `len` is how many the list has.
#[derive(Clone, Copy)]
pub enum Call {
    Request {
        job: usize,
        cpu: usize,
    },
    Release {
        job: usize,
        page: usize,
    },
    Rebind {
        job: usize,
        allowed: u64,
    },
    Install {
        job: usize,
        mode: u64,
        flag: u64,
        mask: u64,
        len: usize,
    },
    Clear {
        job: usize,
    },
    Fresh,
    Keep {
        job: usize,
        len: usize,
    },
    SetMap {
        job: usize,
        len: usize,
    },
    Drain {
        node: usize,
        room: usize,
    },
}

// Runs a call on tables that are in order, and keeps the hints.
pub fn perform(
    layout: Layout,
    hints: &mut [u32; HINTS],
    cpus: &[u8],
    distances: &[u8],
    pages: &mut [u8],
    jobs: &mut [u64],
    free: &mut [u32],
    maps: &mut [u8],
    call: Call,
    places: [u8; PLACES_PER_JOB],
    list: &[u8],
) -> Answer
    requires { (request_tables_ok (machine_of layout.counts.now cpus.now distances.now) (tables_of pages.old jobs.old free.old maps.old) ≡ true) × Hints layout.counts.now pages.old hints.old }
    ensures did { let l = layout.entry in (c : LawCall) → Says call places list.now c → outcome (answer_of result) (tables_of pages.new jobs.new free.new maps.new) ≡ step (machine_of l.counts.now cpus.now distances.now) (tables_of pages.old jobs.old free.old maps.old) c }
    ensures kept { Hints layout.entry.counts.now pages.new hints.new }
{
    let nodes = layout.counts.len();
    match call {
        Call::Request { job, cpu } => {
            hints::request(
                layout, hints, cpus, distances, pages, jobs, free, maps, job, cpu,
            )
        }
        Call::Release { job, page } => {
            hints::release(layout, hints, pages, jobs, free, maps, job, page)
        }
        Call::Rebind { job, allowed } => records::rebind_at(nodes, jobs, job, allowed),
        Call::Install {
            job,
            mode,
            flag,
            mask,
            len,
        } => {
            let policy = AppPolicy {
                mode,
                flag,
                user: mask,
                len,
                places,
            };
            records::install_at(nodes, jobs, maps, job, policy)
        }
        Call::Clear { job } => records::clear_at(nodes, jobs, job),
        Call::Fresh => hints::fresh(layout, hints, pages, free),
        Call::Keep { job, len } => lists::keep(nodes, jobs, maps, job, list, len),
        Call::SetMap { job, len } => lists::set(nodes, jobs, maps, job, list, len),
        Call::Drain { node, room } => hints::drain_node(
            layout, hints, distances, pages, jobs, free, maps, node, room,
        ),
    }
}
