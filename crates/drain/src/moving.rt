// The moves of a drain, once it is known that every page has somewhere to go.

ghost use Rattle.std.specs.Prelude.{List, ◌++◌, true, ◌≡◌, ℕ, ◌+◌, ◌-◌, ◌*◌, ◌≤◌, ◌<◌, length, get_or, set, drop};
ghost use Rattle.std.proofs.Math.Option.{some};
ghost use Rattle.rules.specs.Decisions.{accept};
ghost use Rattle.rules.specs.Calls.{tables_of, after_writes, applied, mapped_tables_ok};
ghost use Rattle.rules.specs.Drain.{Move, held_pages, moves, move_writes, draining, pairs};
ghost use Rattle.placement.specs.Hints.{Hints};
ghost use Rattle.drain.specs.Goals.{goal_by, Met, after_move, near_others};
ghost use Rattle.drain.specs.Moving.{Carries, MayCarry};
ghost use Rattle.drain.specs.Reached.{Drainable, move_by};

use super::goals;
use super::goals::{Board, MetJobs, NONE_MET};
use placement::hinting::HINTS;
use placement::placed::Placed;
use placement::{grant, hinting};
use rules::{Page, SysNode};

// Moves one page of node x to a node that has room: the new page, and the hints kept.
fn carry(
    board: Board,
    hints: &mut [u32; HINTS],
    pages: &mut [u8],
    free: &mut [u32],
    page: Page,
    node: SysNode,
    byte: u8,
) -> Page
    requires { Carries board.layout.counts.now board.layout.starts.now pages.old free.old board.x.0 page.0 node.0 byte × Hints board.layout.counts.now pages.old hints.old }
    ensures taken { let b = board.entry in result.0 ≡ (move_by b.layout.counts.now pages.old page.0 node.0 byte).new }
    ensures table { let b = board.entry in pages.new ≡ after_writes pages.old (move_writes (move_by b.layout.counts.now pages.old page.0 node.0 byte)) }
    ensures counted { let b = board.entry in free.new ≡ after_move b.x.0 free.old node.0 }
    ensures kept { let b = board.entry in Hints b.layout.counts.now pages.new hints.new }
{
    let job = byte - 1;
    match grant::mark_page(board.layout, &hints[..], pages, node, job) {
        Some(new) => {
            hinting::keep(
                board.layout.starts,
                hints,
                job as usize,
                Ok(Placed::Granted(node, new)),
            );
            pages[page.0 as usize] = 0;
            hinting::keep(
                board.layout.starts,
                hints,
                job as usize,
                Ok(Placed::Released(board.x, page)),
            );
            goals::count_move(free, board.x, node);
            new
        }
        None => page,
    }
}

// Puts a pair, old page then new, where there is room for it.
fn put_pair(out: &mut [u32], at: usize, old: Page, new: Page)
    requires { at + 2 ≤ 18446744073709551615 }
    ensures { at + 2 ≤ length out.old → out.new ≡ set (set out.old at old.0) (at + 1) new.0 }
{
    if at + 1 < out.len() {
        out[at] = old.0;
        out[at + 1] = new.0;
    }
}

// Moves a page of node x, if it is held, and puts the pair: where the next one stands.
fn move_at(
    board: Board,
    hints: &mut [u32; HINTS],
    pages: &mut [u8],
    free: &mut [u32],
    met: &mut MetJobs,
    page: Page,
    out: &mut [u32],
    at: usize,
) -> usize
    requires maps_value { (mapped_tables_ok (length board.layout.counts.now) (length board.targets.jobs.now) (length board.targets.maps.now) ≡ true) × Drainable board.layout.counts.now board.layout.starts.now board.x.0 board.targets.order.now pages.old free.old × MayCarry board.layout.counts.now board.targets.order.now pages.old board.targets.jobs.now free.old board.targets.maps.now board.x.0 page.0 × (at + 2 ≤ 18446744073709551615) }
    requires met { Met (length board.layout.counts.now) board.targets.order.now board.targets.jobs.now board.targets.maps.now free.old met.old × Hints board.layout.counts.now pages.old hints.old }
    ensures stays { get_or pages.old page.0 0 ≡ 0 → (result ≡ at) × (pages.new ≡ pages.old) × (free.new ≡ free.old) × (out.new ≡ out.old) }
    ensures moves { let b = board.entry in 0 < get_or pages.old page.0 0 → (k : ℕ) → goal_by (length b.layout.counts.now) b.targets.order.now b.targets.jobs.now b.targets.maps.now free.old (get_or pages.old page.0 0 - 1) ≡ some k → (result ≡ at + 2) × (pages.new ≡ after_writes pages.old (move_writes (move_by b.layout.counts.now pages.old page.0 k (get_or pages.old page.0 0)))) × (free.new ≡ after_move b.x.0 free.old k) × (at + 2 ≤ length out.old → out.new ≡ set (set out.old at page.0) (at + 1) (move_by b.layout.counts.now pages.old page.0 k (get_or pages.old page.0 0)).new) }
    ensures kept { let b = board.entry in Met (length b.layout.counts.now) b.targets.order.now b.targets.jobs.now b.targets.maps.now free.new met.new × Hints b.layout.counts.now pages.new hints.new }
{
    let byte = pages[page.0 as usize];
    if byte == 0 {
        return at;
    }
    match goals::goal_of(board.layout.counts.len(), board.targets, free, met, byte) {
        Some(node) => {
            let new = carry(board, hints, pages, free, page, node, byte);
            put_pair(out, at, page, new);
            at + 2
        }
        None => at,
    }
}

// Moves every held page of node x, from the lowest up, and puts the pairs as far as there is room.
pub fn move_all(
    board: Board,
    hints: &mut [u32; HINTS],
    pages: &mut [u8],
    free: &mut [u32],
    out: &mut [u32],
)
    requires maps_value { (mapped_tables_ok (length board.layout.counts.now) (length board.targets.jobs.now) (length board.targets.maps.now) ≡ true) × Drainable board.layout.counts.now board.layout.starts.now board.x.0 board.targets.order.now pages.old free.old × Hints board.layout.counts.now pages.old hints.old }
    requires by_index { (distances : List ℕ) × (vs : List Move) × (board.targets.order.now ≡ near_others (length board.layout.counts.now) distances board.x.0) × (moves board.layout.counts.now distances board.x.0 (tables_of pages.old board.targets.jobs.now free.old board.targets.maps.now) (held_pages board.layout.counts.now pages.old board.x.0) ≡ accept vs) }
    ensures moved { let b = board.entry in (distances : List ℕ) (vs : List Move) → b.targets.order.now ≡ near_others (length b.layout.counts.now) distances b.x.0 → moves b.layout.counts.now distances b.x.0 (tables_of pages.old b.targets.jobs.now free.old b.targets.maps.now) (held_pages b.layout.counts.now pages.old b.x.0) ≡ accept vs → (tables_of pages.new b.targets.jobs.now free.new b.targets.maps.now ≡ (applied (tables_of pages.old b.targets.jobs.now free.old b.targets.maps.now) (accept (draining b.x.0 (tables_of pages.old b.targets.jobs.now free.old b.targets.maps.now) vs))).tables) × (2 * length vs ≤ length out.old → out.new ≡ pairs vs ++ drop (2 * length vs) out.old) }
    ensures kept { let b = board.entry in Hints b.layout.counts.now pages.new hints.new }
{
    let mut met = NONE_MET;
    let first = board.layout.starts[board.x.0 as usize];
    let end = board.layout.starts[board.x.0 as usize + 1];
    let mut at: usize = 0;
    for page in first..end {
        at = move_at(board, hints, pages, free, &mut met, Page(page), out, at);
    }
}
