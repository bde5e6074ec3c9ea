// Where each held page of a node goes, by the counts alone: of a page only its holder is looked at.

ghost use Rattle.std.specs.Prelude.{true, false, cond, is_some, None, List, ◌≡◌, ℕ, ◌+◌, ◌-◌, ◌≤◌, ◌<◌, length, get_or, MatchOption};
ghost use Rattle.std.proofs.Math.Option.{none, some};
ghost use Rattle.rules.specs.Records.{most_jobs};
ghost use Rattle.rules.specs.Calls.{mapped_tables_ok};
ghost use Rattle.rules.specs.Calls.{tables_of};
ghost use Rattle.rules.specs.Drain.{held_pages, moves};
ghost use Rattle.drain.specs.Goals.{near_others, may_move, limit_in, opens, goal_by, goal_of, holder_of, AllShut, Kept, Met, Ordered, after_move, passes};
ghost use Rattle.drain.specs.Reached.{Drainable, Goes};

use machine::layout::Layout;
use maps::{judging, turning};
use nodemask::Mask;
use placement;
use placement::search;
use records::table;
use rules::{MOST_JOBS, MOST_NODES, SysNode};

// So many bytes there are: enough to name each job.
pub const BYTES: usize = 256;

const _: () = prove!(MOST_JOBS < BYTES);

// What is kept of a job whose pages may be moved: the nodes that it may get, and a position of the order before which no node is open to it.
#[derive(Clone, Copy)]
pub struct MetJob {
    pub limit: Mask,
    pub from: u8,
}

// What is kept of the jobs that have been met, by the bytes that name them, 1 to 64. A table for all bytes would take four times the stack,
// and more time to make than a drain of a few pages can spare.
pub type MetJobs = [Option<MetJob>; MOST_JOBS + 1];

// At first no job has been met.
pub const NONE_MET: MetJobs = [None; MOST_JOBS + 1];

// What says where a page goes: the other nodes, nearest first, job table and maps.
#[derive(Clone, Copy)]
pub struct Targets<'a> {
    pub order: &'a [u8],
    pub jobs: &'a [u64],
    pub maps: &'a [u8],
}

// What a drain reads and does not write: the pages of the nodes, the node x that is drained, and what says where its pages go.
#[derive(Clone, Copy)]
pub struct Board<'a> {
    pub layout: Layout<'a>,
    pub x: SysNode,
    pub targets: Targets<'a>,
}

// The nodes that the job of a byte may get; or none: the byte names no job, or the job's record or map is malformed.
fn holder_of(nodes: usize, jobs: &[u64], maps: &[u8], byte: u8) -> Option<Mask>
    requires { (mapped_tables_ok nodes (length jobs.now) (length maps.now) ≡ true) × (0 < byte) }
    ensures { holder_of result ≡ cond (may_move nodes jobs.now maps.now (byte - 1)) (some (limit_in jobs.now maps.now (byte - 1))) none }
{
    let job = (byte - 1) as usize;
    if !table::has_job(jobs.len(), job) {
        return None;
    }
    let map = judging::judge(nodes, turning::of_job(maps, job))?;
    // `.ok()?` was tried here, and the proof didn't close.
    match placement::admit_mapped(nodes, 1, jobs, map.set, job, 0) {
        Ok(admitted) => Some(admitted.limit),
        Err(_) => None,
    }
}

// The job of a byte, as it is kept, or judged now if it has not been met before; or none: its pages may not be moved.
fn met_job(nodes: usize, targets: Targets, met: &MetJobs, byte: u8) -> Option<MetJob>
    requires { (mapped_tables_ok nodes (length targets.jobs.now) (length targets.maps.now) ≡ true) × (0 < byte) × (byte ≤ most_jobs) }
    ensures { let t = targets.entry in MatchOption result (may_move nodes t.jobs.now t.maps.now (byte - 1) ≡ false) (λ job. (order free : List ℕ) → Met nodes order t.jobs.now t.maps.now free met.now → Kept nodes order t.jobs.now t.maps.now free job byte) }
{
    if let Some(job) = met[byte as usize] {
        return Some(job);
    }
    let limit = holder_of(nodes, targets.jobs, targets.maps, byte)?;
    Some(MetJob { limit, from: 0 })
}

// From a position of the order on: where the first node stands that is in the limit and counted above 0.
fn next_open(order: &[u8], free: &[u32], limit: Mask, from: usize) -> Option<usize>
    requires { from ≤ length order.now }
    ensures { MatchOption result (AllShut order.now free.now limit.0 from (length order.now)) (λ at. (from ≤ at) × (at < length order.now) × AllShut order.now free.now limit.0 from at × (opens free.now limit.0 (get_or order.now at 0) ≡ true)) }
{
    for i in from..order.len() {
        if search::is_open(free, limit, SysNode(order[i])) {
            return Some(i);
        }
    }
    None
}

// Where a page that has this byte goes. Its job, if its pages may be moved, is one that has been met from then on.
pub fn goal_of(
    nodes: usize,
    targets: Targets,
    free: &[u32],
    met: &mut MetJobs,
    byte: u8,
) -> Option<SysNode>
    requires { (mapped_tables_ok nodes (length targets.jobs.now) (length targets.maps.now) ≡ true) × (0 < byte) × (length targets.order.now ≤ 64) × Met nodes targets.order.now targets.jobs.now targets.maps.now free.now met.old }
    ensures goes { let t = targets.entry in goal_of result ≡ goal_by nodes t.order.now t.jobs.now t.maps.now free.now (byte - 1) }
    ensures kept { let t = targets.entry in Met nodes t.order.now t.jobs.now t.maps.now free.now met.new }
    ensures met { let t = targets.entry in may_move nodes t.jobs.now t.maps.now (byte - 1) ≡ true → is_some (get_or met.new byte None) ≡ true }
{
    // A byte above names no job.
    if MOST_JOBS < byte as usize {
        return None;
    }
    let job = met_job(nodes, targets, met, byte)?;
    let found = next_open(targets.order, free, job.limit, job.from as usize);
    let kept = MetJob {
        limit: job.limit,
        from: found.unwrap_or(targets.order.len()) as u8,
    };
    met[byte as usize] = Some(kept);
    Some(SysNode(targets.order[found?]))
}

// The counts after a move from x to another node.
pub fn count_move(free: &mut [u32], x: SysNode, node: SysNode)
    requires { (x.0 < length free.old) × (node.0 < length free.old) × (node.0 ≡ x.0 → ⊥) × (0 < get_or free.old node.0 0) × (get_or free.old x.0 0 < 4294967295) }
    ensures { free.new ≡ after_move x.0 free.old node.0 }
{
    let from = x.0 as usize;
    let to = node.0 as usize;
    let more = free[from] + 1;
    let less = free[to] - 1;
    free[from] = more;
    free[to] = less;
}

// A page of node x that has this byte: has it somewhere to go? Its move is counted; a free page has none.
fn pass(board: Board, free: &mut [u32], met: &mut MetJobs, byte: u8) -> bool
    requires { (mapped_tables_ok (length board.layout.counts.now) (length board.targets.jobs.now) (length board.targets.maps.now) ≡ true) × Ordered (length board.layout.counts.now) board.x.0 board.targets.order.now free.old × Met (length board.layout.counts.now) board.targets.order.now board.targets.jobs.now board.targets.maps.now free.old met.old × (get_or free.old board.x.0 0 < 4294967295) }
    ensures stays { byte ≡ 0 → (result ≡ true) × (free.new ≡ free.old) }
    ensures stuck { let b = board.entry in 0 < byte → goal_by (length b.layout.counts.now) b.targets.order.now b.targets.jobs.now b.targets.maps.now free.old (byte - 1) ≡ none → result ≡ false }
    ensures goes { let b = board.entry in 0 < byte → (k : ℕ) → goal_by (length b.layout.counts.now) b.targets.order.now b.targets.jobs.now b.targets.maps.now free.old (byte - 1) ≡ some k → (result ≡ true) × (free.new ≡ after_move b.x.0 free.old k) }
    ensures kept { let b = board.entry in Met (length b.layout.counts.now) b.targets.order.now b.targets.jobs.now b.targets.maps.now free.new met.new }
{
    if byte == 0 {
        return true;
    }
    match goal_of(board.layout.counts.len(), board.targets, free, met, byte) {
        Some(node) => {
            count_move(free, board.x, node);
            true
        }
        None => false,
    }
}

// Have all pages of node x that have these bytes somewhere to go? Each move is counted.
fn all_pass(board: Board, free: &mut [u32], part: &[u8]) -> bool
    requires { (mapped_tables_ok (length board.layout.counts.now) (length board.targets.jobs.now) (length board.targets.maps.now) ≡ true) × Ordered (length board.layout.counts.now) board.x.0 board.targets.order.now free.old × (get_or free.old board.x.0 0 + length part.now ≤ 4294967295) }
    ensures { let b = board.entry in result ≡ passes (length b.layout.counts.now) b.targets.order.now b.targets.jobs.now b.targets.maps.now b.x.0 free.old part.now }
{
    let mut met = NONE_MET;
    for byte in part {
        if !pass(board, free, &mut met, *byte) {
            return false;
        }
    }
    true
}

// Has every held page of node x somewhere to go? By counts of its own, so that nothing is written.
pub fn all_go(board: Board, pages: &[u8], free: &[u32]) -> bool
    requires { (mapped_tables_ok (length board.layout.counts.now) (length board.targets.jobs.now) (length board.targets.maps.now) ≡ true) × Drainable board.layout.counts.now board.layout.starts.now board.x.0 board.targets.order.now pages.now free.now }
    ensures { let b = board.entry in (distances : List ℕ) → b.targets.order.now ≡ near_others (length b.layout.counts.now) distances b.x.0 → Goes result (moves b.layout.counts.now distances b.x.0 (tables_of pages.now b.targets.jobs.now free.now b.targets.maps.now) (held_pages b.layout.counts.now pages.now b.x.0)) }
{
    let start = board.layout.starts[board.x.0 as usize] as usize;
    let end = board.layout.starts[board.x.0 as usize + 1] as usize;
    let mut copies = [0u32; MOST_NODES];
    let copy = &mut copies[..board.layout.counts.len()];
    copy.copy_from_slice(free);
    all_pass(board, copy, &pages[start..end])
}
