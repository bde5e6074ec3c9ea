// The calls that change pages, with the hints kept: for each node and colour a page before which its pages of that colour are held, and for
// each node one before which all its pages are. A list of calls keeps them from call to call, so that a search for a free page goes over no
// held page twice.
// `request` and `release` end with the same two calls; a function for these would have more clauses than calls.

ghost use Rattle.std.specs.Prelude.{true, ◌≡◌, length};
ghost use Rattle.rules.specs.Answers.{answer_of};
ghost use Rattle.rules.specs.Drain.{drain_tables_ok, drain_decision};
ghost use Rattle.rules.specs.Calls.{Tables, tables_of, with_pages, outcome, applied, request_tables_ok, release_tables_ok, fresh_tables_ok, on_request, on_release, on_fresh};
ghost use Rattle.machine.specs.Tables.{machine_of};
ghost use Rattle.placement.specs.Hints.{Hints};

use drain;
use machine::layout::Layout;
use placement;
use placement::hinting::HINTS;
use placement::{hinting, placed};
use rules::{Answer, Effect};

// A request on tables that are in order.
pub fn request(
    layout: Layout,
    hints: &mut [u32; HINTS],
    cpus: &[u8],
    distances: &[u8],
    pages: &mut [u8],
    jobs: &mut [u64],
    free: &mut [u32],
    maps: &[u8],
    job: usize,
    cpu: usize,
) -> Answer
    requires { (request_tables_ok (machine_of layout.counts.now cpus.now distances.now) (tables_of pages.old jobs.old free.old maps.now) ≡ true) × Hints layout.counts.now pages.old hints.old }
    ensures did { let l = layout.entry in outcome (answer_of result) (tables_of pages.new jobs.new free.new maps.now) ≡ on_request (machine_of l.counts.now cpus.now distances.now) (tables_of pages.old jobs.old free.old maps.now) job cpu }
    ensures kept { Hints layout.entry.counts.now pages.new hints.new }
{
    let placed = placement::request_at(
        layout,
        &hints[..],
        cpus,
        distances,
        pages,
        jobs,
        free,
        maps,
        job,
        cpu,
    );
    hinting::keep(layout.starts, hints, job, placed);
    placed::tell(maps, job, placed)
}

// A release on tables that are in order.
pub fn release(
    layout: Layout,
    hints: &mut [u32; HINTS],
    pages: &mut [u8],
    jobs: &[u64],
    free: &mut [u32],
    maps: &[u8],
    job: usize,
    page: usize,
) -> Answer
    requires { (release_tables_ok layout.counts.now (tables_of pages.old jobs.now free.old maps.now) ≡ true) × Hints layout.counts.now pages.old hints.old }
    ensures did { let l = layout.entry in outcome (answer_of result) (tables_of pages.new jobs.now free.new maps.now) ≡ on_release l.counts.now (tables_of pages.old jobs.now free.old maps.now) job page }
    ensures kept { Hints layout.entry.counts.now pages.new hints.new }
{
    let placed = placement::release_at(layout, pages, jobs, free, maps, job, page);
    hinting::keep(layout.starts, hints, job, placed);
    placed::tell(maps, job, placed)
}

// The fresh table on tables that are in order: no page is held.
pub fn fresh(layout: Layout, hints: &mut [u32; HINTS], pages: &mut [u8], free: &mut [u32]) -> Answer
    requires { fresh_tables_ok layout.counts.now (length pages.old) (length free.old) ≡ true }
    ensures did { let l = layout.entry in (t : Tables) → outcome (answer_of result) (with_pages t pages.new free.new) ≡ on_fresh l.counts.now (with_pages t pages.old free.old) }
    ensures kept { Hints layout.entry.counts.now pages.new hints.new }
{
    *hints = [0; HINTS];
    placement::fresh_at(layout, pages, free)
}

// A drain on tables that are in order. The pairs are not handed out; `room` is what the call says it has for them.
pub fn drain_node(
    layout: Layout,
    hints: &mut [u32; HINTS],
    distances: &[u8],
    pages: &mut [u8],
    jobs: &[u64],
    free: &mut [u32],
    maps: &[u8],
    node: usize,
    room: usize,
) -> Answer
    requires { (drain_tables_ok layout.counts.now distances.now (tables_of pages.old jobs.now free.old maps.now) ≡ true) × Hints layout.counts.now pages.old hints.old }
    ensures did { let l = layout.entry in outcome (answer_of result) (tables_of pages.new jobs.now free.new maps.now) ≡ applied (tables_of pages.old jobs.now free.old maps.now) (drain_decision l.counts.now distances.now node (tables_of pages.old jobs.now free.old maps.now) room) }
    ensures kept { Hints layout.entry.counts.now pages.new hints.new }
{
    let mut none = [0u32; 1];
    let moves = drain::drain_at(
        layout,
        hints,
        distances,
        pages,
        jobs,
        free,
        maps,
        node,
        room,
        &mut none[..0],
    )?;
    Ok(Effect::Drained(moves as u32))
}
