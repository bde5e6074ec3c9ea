// Requests and releases of single pages, and the fresh table: document 01, "Search order" and "Refusal numbers", and request M-100.

#![tactic(auto)]

ghost use Rattle.std.specs.Prelude.{true, ◌&&◌, List, ◌≡◌, ℕ, ◌<◌, leb, length};
ghost use Rattle.rules.specs.Basics.{sum};
ghost use Rattle.rules.specs.Machine.{node_of_page};
ghost use Rattle.rules.specs.Masks.{both};
ghost use Rattle.rules.specs.Records.{most_jobs, job_count, record_at};
ghost use Rattle.rules.specs.SearchOrder.{plan, order, chosen};
ghost use Rattle.rules.specs.Calls.{Tables, tables_of, with_pages, outcome, applied, map_of, is_job, free_ok, fresh_tables_ok, request_tables_ok, release_tables_ok, mapped_tables_ok, admitted, limit_of, serve, on_request, on_release, on_fresh};
ghost use Rattle.rules.specs.Answers.{answer_of};
ghost use Rattle.machine.specs.Tables.{machine_of};
ghost use Rattle.records.specs.Jobs.{record_of};
ghost use Rattle.placement.specs.Admissions.{admission_of, LimitIs, admit_tests};
ghost use Rattle.placement.specs.Searches.{Searchable};
ghost use Rattle.placement.specs.Grants.{Ready};
ghost use Rattle.placement.specs.Hints.{Hints};
ghost use Rattle.placement.specs.Placed.{placed_as, InNode, release_tests};

use machine;
use machine::Located;
use machine::layout::Layout;
use maps::{judging, turning};
use nodemask::Mask;
use placed::Placed;
use records::record::Record;
use records::table;
use rules::{Answer, Effect, Page, Refusal, SysNode};

pub mod grant;
pub mod hinting;
pub mod placed;
pub mod plan;
pub mod search;

// ---- refusal 1

// Are the page table and the free counts in order, by their lengths, for so many nodes and pages?
fn pages_ok(nodes: usize, total: usize, bytes: usize, entries: usize) -> bool
    ensures { result ≡ (leb total bytes && free_ok nodes entries) }
{
    (total <= bytes) & (entries == nodes)
}

// And the job table and the maps too?
pub fn lent_ok(
    nodes: usize,
    total: usize,
    bytes: usize,
    words: usize,
    entries: usize,
    maps: usize,
) -> bool
    ensures { result ≡ (leb total bytes && free_ok nodes entries && mapped_tables_ok nodes words maps) }
{
    pages_ok(nodes, total, bytes, entries) & table::mapped_ok(nodes, words, maps)
}

// ---- request

// What a request that has passed the tests before the search goes by: its job's record and the nodes that the job may get.
#[derive(Clone, Copy)]
pub struct Admitted {
    pub record: Record,
    pub limit: Mask,
}

// "3, 4": the tests that are left for a job with a good map, whose nodes are this set.
pub fn admit_mapped(
    nodes: usize,
    cpus: usize,
    jobs: &[u64],
    set: Mask,
    job: usize,
    cpu: usize,
) -> Result<Admitted, Refusal>
    requires { job < job_count (length jobs.now) }
    ensures tested { admission_of result ≡ admit_tests nodes cpus cpu (record_at jobs.now job) }
    ensures limit { LimitIs (both (record_at jobs.now job).allowed set.0) result }
{
    if cpu >= cpus {
        return Err(Refusal::NoSuchCpu);
    }
    let record = table::load(jobs, job);
    if !record.well_formed(nodes) {
        return Err(Refusal::MalformedRecord);
    }
    let limit = record.allowed.both(set);
    Ok(Admitted { record, limit })
}

// "Order: request 1, 2", 15, "3, 4": the tests before the search, on tables that are in order.
pub fn admit(
    counts: &[u32],
    cpus: &[u8],
    distances: &[u8],
    pages: &[u8],
    jobs: &[u64],
    free: &[u32],
    maps: &[u8],
    job: usize,
    cpu: usize,
) -> Result<Admitted, Refusal>
    requires { request_tables_ok (machine_of counts.now cpus.now distances.now) (tables_of pages.now jobs.now free.now maps.now) ≡ true }
    ensures tested { admission_of result ≡ admitted (machine_of counts.now cpus.now distances.now) (tables_of pages.now jobs.now free.now maps.now) job cpu }
    ensures limit { LimitIs (limit_of (tables_of pages.now jobs.now free.now maps.now) job) result }
{
    let known = table::has_job(jobs.len(), job);
    if !known {
        return Err(Refusal::NoSuchJob);
    }
    let nodes = counts.len();
    let Some(map) = judging::judge(nodes, turning::of_job(maps, job)) else {
        return Err(Refusal::BadMap);
    };
    admit_mapped(nodes, cpus.len(), jobs, map.set, job, cpu)
}

// The first node in the order that is counted above 0 grants: a request that has passed its tests, from a CPU on node x.
fn serve(
    layout: Layout,
    hints: &[u32],
    distances: &[u8],
    pages: &mut [u8],
    jobs: &mut [u64],
    free: &mut [u32],
    job: usize,
    loaded: Record,
    limit: Mask,
    x: SysNode,
) -> Result<Placed, Refusal>
    requires { Ready layout.counts.now layout.starts.now pages.old job × (is_job jobs.old job ≡ true) × (length free.old ≡ length layout.counts.now) × Searchable free.old distances.now limit.0 (record_of loaded) x.0 × Hints layout.counts.now pages.old hints.now }
    ensures did { let l = layout.entry in (maps : List ℕ) → outcome (placed_as (map_of (tables_of pages.old jobs.old free.old maps) job) result) (tables_of pages.new jobs.new free.new maps) ≡ applied (tables_of pages.old jobs.old free.old maps) (serve l.counts.now (tables_of pages.old jobs.old free.old maps) job (chosen free.old (order (length l.counts.now) distances.now limit.0 (plan limit.0 (record_of loaded) x.0)))) }
    ensures found { InNode layout.entry.counts.now result }
{
    let decoded = loaded.job();
    let found = search::search(free, distances, limit, decoded, x);
    let chosen = found.ok_or(Refusal::NoRoom)?;
    grant::grant_node(
        layout,
        hints,
        pages,
        jobs,
        free,
        job,
        chosen.node,
        chosen.cursor,
    )
}

// A request on tables that are in order. A page is searched for from its node's hints on; there may be none.
pub fn request_at(
    layout: Layout,
    hints: &[u32],
    cpus: &[u8],
    distances: &[u8],
    pages: &mut [u8],
    jobs: &mut [u64],
    free: &mut [u32],
    maps: &[u8],
    job: usize,
    cpu: usize,
) -> Result<Placed, Refusal>
    requires { (request_tables_ok (machine_of layout.counts.now cpus.now distances.now) (tables_of pages.old jobs.old free.old maps.now) ≡ true) × Hints layout.counts.now pages.old hints.now }
    ensures did { let l = layout.entry in outcome (placed_as (map_of (tables_of pages.old jobs.old free.old maps.now) job) result) (tables_of pages.new jobs.new free.new maps.now) ≡ on_request (machine_of l.counts.now cpus.now distances.now) (tables_of pages.old jobs.old free.old maps.now) job cpu }
    ensures found { InNode layout.entry.counts.now result }
{
    let counts = layout.counts;
    let admitted = admit(counts, cpus, distances, pages, jobs, free, maps, job, cpu)?;
    let x = SysNode(cpus[cpu]);
    serve(
        layout,
        hints,
        distances,
        pages,
        jobs,
        free,
        job,
        admitted.record,
        admitted.limit,
        x,
    )
}

// A request: refusals 1, 2, 15, 3, 4, 14 and 8, or the page that the search order names.
pub fn request(
    counts: &[u32],
    cpus: &[u8],
    distances: &[u8],
    pages: &mut [u8],
    jobs: &mut [u64],
    free: &mut [u32],
    maps: &[u8],
    job: usize,
    cpu: usize,
) -> Answer
    ensures { outcome (answer_of result) (tables_of pages.new jobs.new free.new maps.now) ≡ on_request (machine_of counts.now cpus.now distances.now) (tables_of pages.old jobs.old free.old maps.now) job cpu }
{
    if !machine::machine_ok(counts, cpus, distances) {
        return Err(Refusal::BadTables);
    }
    let starts = machine::starts_of(counts);
    let total = machine::pages_end(counts, &starts);
    if !lent_ok(
        counts.len(),
        total,
        pages.len(),
        jobs.len(),
        free.len(),
        maps.len(),
    ) {
        return Err(Refusal::BadTables);
    }
    let layout = Layout {
        counts,
        starts: &starts,
    };
    let placed = request_at(
        layout,
        &counts[..0],
        cpus,
        distances,
        pages,
        jobs,
        free,
        maps,
        job,
        cpu,
    );
    placed::tell(maps, job, placed)
}

// ---- release

// A release for a job with a good map, where the page's node is known: one byte and one count are written, after the last test.
fn release_held(
    counts: &[u32],
    pages: &mut [u8],
    free: &mut [u32],
    job: usize,
    page: usize,
    at: Located,
) -> Result<Placed, Refusal>
    requires { (fresh_tables_ok counts.now (length pages.old) (length free.old) ≡ true) × (job < most_jobs) × (at.total ≡ sum counts.now) × (page < sum counts.now → at.node.0 ≡ node_of_page counts.now page) }
    ensures did { (jobs maps : List ℕ) → outcome (placed_as (map_of (tables_of pages.old jobs free.old maps) job) result) (tables_of pages.new jobs free.new maps) ≡ applied (tables_of pages.old jobs free.old maps) (release_tests counts.now (tables_of pages.old jobs free.old maps) job page) }
    ensures found { InNode counts.now result }
{
    if page >= at.total {
        return Err(Refusal::NotHeld);
    }
    let holder = pages[page];
    if holder as usize != job + 1 {
        return Err(Refusal::NotHeld);
    }
    let node = at.node;
    let n = node.0 as usize;
    if counts[n] <= free[n] {
        return Err(Refusal::WrongCount);
    }
    pages[page] = 0;
    free[n] = free[n] + 1;
    Ok(Placed::Released(node, Page(page as u32)))
}

// A release on tables that are in order, where the page's node is known.
fn release_located(
    counts: &[u32],
    pages: &mut [u8],
    jobs: &[u64],
    free: &mut [u32],
    maps: &[u8],
    job: usize,
    page: usize,
    at: Located,
) -> Result<Placed, Refusal>
    requires { (release_tables_ok counts.now (tables_of pages.old jobs.now free.old maps.now) ≡ true) × (at.total ≡ sum counts.now) × (page < sum counts.now → at.node.0 ≡ node_of_page counts.now page) }
    ensures did { outcome (placed_as (map_of (tables_of pages.old jobs.now free.old maps.now) job) result) (tables_of pages.new jobs.now free.new maps.now) ≡ on_release counts.now (tables_of pages.old jobs.now free.old maps.now) job page }
    ensures found { InNode counts.now result }
{
    if !table::has_job(jobs.len(), job) {
        return Err(Refusal::NoSuchJob);
    }
    let Some(_) = judging::judge(counts.len(), turning::of_job(maps, job)) else {
        return Err(Refusal::BadMap);
    };
    release_held(counts, pages, free, job, page, at)
}

// A release on tables that are in order.
pub fn release_at(
    layout: Layout,
    pages: &mut [u8],
    jobs: &[u64],
    free: &mut [u32],
    maps: &[u8],
    job: usize,
    page: usize,
) -> Result<Placed, Refusal>
    requires { release_tables_ok layout.counts.now (tables_of pages.old jobs.now free.old maps.now) ≡ true }
    ensures did { let l = layout.entry in outcome (placed_as (map_of (tables_of pages.old jobs.now free.old maps.now) job) result) (tables_of pages.new jobs.now free.new maps.now) ≡ on_release l.counts.now (tables_of pages.old jobs.now free.old maps.now) job page }
    ensures found { InNode layout.entry.counts.now result }
{
    let total = machine::pages_end(layout.counts, layout.starts);
    let mut node = SysNode(0);
    if page < total {
        node = machine::node_of_page(layout.counts, layout.starts, Page(page as u32));
    }
    let at = Located { node, total };
    release_located(layout.counts, pages, jobs, free, maps, job, page, at)
}

// Release: a page that the job holds becomes free. No starts are made: one pass over the counts finds the page's node and sums them.
pub fn release(
    counts: &[u32],
    pages: &mut [u8],
    jobs: &[u64],
    free: &mut [u32],
    maps: &[u8],
    job: usize,
    page: usize,
) -> Answer
    ensures { outcome (answer_of result) (tables_of pages.new jobs.now free.new maps.now) ≡ on_release counts.now (tables_of pages.old jobs.now free.old maps.now) job page }
{
    if !machine::counts_ok(counts) {
        return Err(Refusal::BadTables);
    }
    let at = machine::locate(counts, page);
    let fits = lent_ok(
        counts.len(),
        at.total,
        pages.len(),
        jobs.len(),
        free.len(),
        maps.len(),
    );
    if !((at.total <= 1_048_576) & fits) {
        return Err(Refusal::BadTables);
    }
    let placed = release_located(counts, pages, jobs, free, maps, job, page, at);
    placed::tell(maps, job, placed)
}

// ---- the fresh table

// Copies the page counts.
pub fn copy_counts(counts: &[u32], free: &mut [u32])
    requires { length free.old ≡ length counts.now }
    ensures { free.new ≡ counts.now }
{
    free.copy_from_slice(counts);
}

// The fresh table on tables that are in order.
pub fn fresh_at(layout: Layout, pages: &mut [u8], free: &mut [u32]) -> Answer
    requires { fresh_tables_ok layout.counts.now (length pages.old) (length free.old) ≡ true }
    ensures { let l = layout.entry in (t : Tables) → outcome (answer_of result) (with_pages t pages.new free.new) ≡ on_fresh l.counts.now (with_pages t pages.old free.old) }
{
    let total = machine::pages_end(layout.counts, layout.starts);
    pages[..total].fill(0);
    copy_counts(layout.counts, free);
    Ok(Effect::Done)
}

// The fresh table: every page of the machine becomes free, and the counts are made. Refusal 1 alone.
pub fn fresh(counts: &[u32], pages: &mut [u8], free: &mut [u32]) -> Answer
    ensures { (t : Tables) → outcome (answer_of result) (with_pages t pages.new free.new) ≡ on_fresh counts.now (with_pages t pages.old free.old) }
{
    if !machine::page_counts_ok(counts) {
        return Err(Refusal::BadTables);
    }
    let starts = machine::starts_of(counts);
    let total = machine::pages_end(counts, &starts);
    if !pages_ok(counts.len(), total, pages.len(), free.len()) {
        return Err(Refusal::BadTables);
    }
    let layout = Layout {
        counts,
        starts: &starts,
    };
    fresh_at(layout, pages, free)
}
