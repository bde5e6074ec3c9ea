// Drain a board: request M-107. Its definitions are in crates/rules/specs/Drain.antt.

#![tactic(auto)]

ghost use Rattle.std.specs.Prelude.{true, ◌≡◌, ◌<◌, length, List, ℕ};
ghost use Rattle.rules.specs.Answers.{decision_of};
ghost use Rattle.rules.specs.SearchOrder.{free_counts};
ghost use Rattle.rules.specs.Calls.{tables_of, mapped_tables_ok};
ghost use Rattle.drain.specs.Goals.{near_others};
ghost use Rattle.drain.specs.Reached.{Drainable};
ghost use Rattle.rules.specs.Drain.{drain_tables_ok, moves_within, drain_moves, did_drain, on_drain};
ghost use Rattle.placement.specs.Hints.{Hints};
ghost use Rattle.drain.specs.Outcomes.{count_of, tables_after, pairs_after};

use goals::{Board, Targets};
use machine;
use machine::layout::Layout;
use machine::listing;
use nodemask::Mask;
use placement;
use placement::hinting::HINTS;
use rules::{Refusal, SysNode};

mod counting;
pub mod goals;
pub mod moving;

// A drain on tables that are in order, with counts that match: refusals 17 and 11. The pairs are put as far as there is room in `out`; `room` is
// what the caller has said.
fn drain_by(
    board: Board,
    hints: &mut [u32; HINTS],
    pages: &mut [u8],
    free: &mut [u32],
    room: usize,
    out: &mut [u32],
) -> Result<u64, Refusal>
    requires maps_value { (mapped_tables_ok (length board.layout.counts.now) (length board.targets.jobs.now) (length board.targets.maps.now) ≡ true) × Drainable board.layout.counts.now board.layout.starts.now board.x.0 board.targets.order.now pages.old free.old × Hints board.layout.counts.now pages.old hints.old }
    requires by_index { (distances : List ℕ) × (board.targets.order.now ≡ near_others (length board.layout.counts.now) distances board.x.0) }
    ensures answer { let b = board.entry in (distances : List ℕ) → b.targets.order.now ≡ near_others (length b.layout.counts.now) distances b.x.0 → decision_of result ≡ count_of (moves_within b.layout.counts.now distances b.x.0 (tables_of pages.old b.targets.jobs.now free.old b.targets.maps.now) room) }
    ensures tables { let b = board.entry in (distances : List ℕ) → b.targets.order.now ≡ near_others (length b.layout.counts.now) distances b.x.0 → tables_of pages.new b.targets.jobs.now free.new b.targets.maps.now ≡ tables_after b.x.0 (tables_of pages.old b.targets.jobs.now free.old b.targets.maps.now) (moves_within b.layout.counts.now distances b.x.0 (tables_of pages.old b.targets.jobs.now free.old b.targets.maps.now) room) }
    ensures pairs { let b = board.entry in (distances : List ℕ) → b.targets.order.now ≡ near_others (length b.layout.counts.now) distances b.x.0 → room ≡ length out.old → out.new ≡ pairs_after out.old (moves_within b.layout.counts.now distances b.x.0 (tables_of pages.old b.targets.jobs.now free.old b.targets.maps.now) room) }
    ensures kept { let b = board.entry in Hints b.layout.counts.now pages.new hints.new }
{
    if !goals::all_go(board, pages, free) {
        return Err(Refusal::NowhereToGo);
    }
    let n = board.x.0 as usize;
    let moves = (board.layout.counts[n] - free[n]) as usize;
    if room < 2 * moves {
        return Err(Refusal::OutputTooShort);
    }
    moving::move_all(board, hints, pages, free, out);
    Ok(moves as u64)
}

// A drain on tables that are in order: refusals 6, 14, 17 and 11. near(x) is listed once, over all nodes; x comes first in it.
pub fn drain_at(
    layout: Layout,
    hints: &mut [u32; HINTS],
    distances: &[u8],
    pages: &mut [u8],
    jobs: &[u64],
    free: &mut [u32],
    maps: &[u8],
    node: usize,
    room: usize,
    out: &mut [u32],
) -> Result<u64, Refusal>
    requires { (drain_tables_ok layout.counts.now distances.now (tables_of pages.old jobs.now free.old maps.now) ≡ true) × Hints layout.counts.now pages.old hints.old }
    ensures answer { let l = layout.entry in decision_of result ≡ count_of (drain_moves l.counts.now distances.now node (tables_of pages.old jobs.now free.old maps.now) room) }
    ensures tables { let l = layout.entry in tables_of pages.new jobs.now free.new maps.now ≡ tables_after node (tables_of pages.old jobs.now free.old maps.now) (drain_moves l.counts.now distances.now node (tables_of pages.old jobs.now free.old maps.now) room) }
    ensures pairs { let l = layout.entry in room ≡ length out.old → out.new ≡ pairs_after out.old (drain_moves l.counts.now distances.now node (tables_of pages.old jobs.now free.old maps.now) room) }
    ensures kept { Hints layout.entry.counts.now pages.new hints.new }
{
    let nodes = layout.counts.len();
    if node >= nodes {
        return Err(Refusal::DoesNotFit);
    }
    if !counting::counts_match(layout, pages, free) {
        return Err(Refusal::WrongCount);
    }
    let x = SysNode(node as u8);
    let listed = listing::near(nodes, distances, Mask::all_nodes(nodes), x);
    let order = listed.nodes;
    let len = listed.len;
    let board = Board {
        layout,
        x,
        targets: Targets {
            order: &order[1..len],
            jobs,
            maps,
        },
    };
    drain_by(board, hints, pages, free, room, out)
}

// Drain: every held page of a node is moved, and the pairs of pages are put; or refusal 1, 6, 14, 17 or 11, and nothing is written.
pub fn drain(
    counts: &[u32],
    distances: &[u8],
    pages: &mut [u8],
    jobs: &[u64],
    free: &mut [u32],
    maps: &[u8],
    node: usize,
    out: &mut [u32],
) -> Result<u64, Refusal>
    ensures { did_drain (decision_of result) (tables_of pages.new jobs.now free.new maps.now) out.new ≡ on_drain counts.now distances.now node (tables_of pages.old jobs.now free.old maps.now) out.old }
{
    if !machine::page_counts_ok(counts) {
        return Err(Refusal::BadTables);
    }
    if !machine::distances_ok(counts.len(), distances) {
        return Err(Refusal::BadTables);
    }
    let starts = machine::starts_of(counts);
    let total = machine::pages_end(counts, &starts);
    if !placement::lent_ok(
        counts.len(),
        total,
        pages.len(),
        jobs.len(),
        free.len(),
        maps.len(),
    ) {
        return Err(Refusal::BadTables);
    }
    let mut hints = [0u32; HINTS];
    let room = out.len();
    let layout = Layout {
        counts,
        starts: &starts,
    };
    drain_at(
        layout, &mut hints, distances, pages, jobs, free, maps, node, room, out,
    )
}
