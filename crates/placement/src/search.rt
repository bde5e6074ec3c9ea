// The search of a request: the first node in the order that is counted above 0. It goes by the counts alone: no page is looked at, and no
// order is built.

ghost use Rattle.std.specs.Prelude.{◌&&◌, ◌++◌, map, ◌≡◌, ◌%◌, ◌≤◌, ◌<◌, ltb, length};
ghost use Rattle.rules.specs.Masks.{has};
ghost use Rattle.rules.specs.Records.{places_per_job};
ghost use Rattle.rules.specs.SearchOrder.{try, near, tried, plan, order, counted, chosen};
ghost use Rattle.machine.specs.Listing.{Nearable};
ghost use Rattle.records.specs.Jobs.{turn_of, job_of};
ghost use Rattle.placement.specs.Searches.{chosen_by, Searchable};
ghost use Rattle.placement.specs.Plans.{leaves, round_tries, walk_tries};

use super::plan::{Plan, Walk};
use machine;
use nodemask::Mask;
use records::job::Job;
use rules::{PLACES_PER_JOB, Place, SysNode};

// The node that is chosen, and the cursor field that a grant there leaves.
#[derive(Clone, Copy)]
pub struct Chosen {
    pub node: SysNode,
    pub cursor: u8,
}

// Is the node one of the machine's, in the limit, and counted above 0? There is a count for each node.
pub fn is_open(free: &[u32], limit: Mask, node: SysNode) -> bool
    ensures { result ≡ (ltb node.0 (length free.now) && has limit.0 node.0 && counted free.now node.0) }
{
    let n = node.0 as usize;
    if n < free.len() {
        return limit.has(node) & (0 < free[n]);
    }
    false
}

// ---- by near(x)

// The nearest node of the set that is counted above 0.
fn search_near(free: &[u32], distances: &[u8], set: Mask, x: SysNode, cursor: u8) -> Option<Chosen>
    requires { Nearable (length free.now) distances.now set.0 x.0 }
    ensures { chosen_by result ≡ chosen free.now (map (try (turn_of cursor)) (near (length free.now) distances.now set.0 x.0)) }
{
    let node = machine::nearest(free.len(), distances, free, set, x)?;
    Some(Chosen { node, cursor })
}

// ---- by places

// The place at a position of a list, which starts again at its end. By a test, and not by `%`: no division for each place that is tried.
fn place_at(position: u8, len: u8) -> Place
    requires { (0 < len) × (position ≤ len) }
    ensures { result.0 ≡ position % len }
{
    if position < len {
        return Place(position);
    }
    Place(0)
}

// The cursor field that a place leaves where it grants.
fn cursor_after(walk: Walk, place: Place) -> u8
    requires { place.0 < places_per_job }
    ensures { turn_of result ≡ leaves walk.moves (turn_of walk.cursor) place.0 }
{
    if walk.moves {
        return place.0 + 1;
    }
    walk.cursor
}

// The places from the cursor on, once round.
fn search_round(
    free: &[u32],
    limit: Mask,
    places: [u8; PLACES_PER_JOB],
    walk: Walk,
) -> Option<Chosen>
    requires { (walk.len ≤ places_per_job) × (walk.cursor ≤ walk.len) }
    ensures { chosen_by result ≡ chosen free.now (tried (length free.now) limit.0 (round_tries walk.moves places (turn_of walk.cursor) walk.len walk.cursor walk.len)) }
{
    let mut position = walk.cursor;
    for _step in 0..walk.len {
        let place = place_at(position, walk.len);
        let node = SysNode(places[place.0 as usize]);
        if is_open(free, limit, node) {
            let cursor = cursor_after(walk, place);
            return Some(Chosen { node, cursor });
        }
        position = place.0 + 1;
    }
    None
}

// Place 0 first where the walk is early, then the round.
fn search_places(
    free: &[u32],
    limit: Mask,
    places: [u8; PLACES_PER_JOB],
    walk: Walk,
) -> Option<Chosen>
    requires { (walk.len ≤ places_per_job) × (walk.cursor ≤ walk.len) }
    ensures { chosen_by result ≡ chosen free.now (tried (length free.now) limit.0 (walk_tries walk places)) }
{
    if walk.early {
        let node = SysNode(places[0]);
        if is_open(free, limit, node) {
            let cursor = cursor_after(walk, Place(0));
            return Some(Chosen { node, cursor });
        }
    }
    search_round(free, limit, places, walk)
}

// ---- by places, and then by near(x)

// M-104: the places, and where none of them is open the nearest node of the limit.
fn search_closed(
    free: &[u32],
    distances: &[u8],
    limit: Mask,
    places: [u8; PLACES_PER_JOB],
    walk: Walk,
    x: SysNode,
) -> Option<Chosen>
    requires { (walk.len ≤ places_per_job) × (walk.cursor ≤ walk.len) × Nearable (length free.now) distances.now limit.0 x.0 }
    ensures { chosen_by result ≡ chosen free.now (tried (length free.now) limit.0 (walk_tries walk places) ++ map (try (turn_of walk.cursor)) (near (length free.now) distances.now limit.0 x.0)) }
{
    let placed = search_places(free, limit, places, walk);
    match placed {
        Some(chosen) => Some(chosen),
        None => search_near(free, distances, limit, x, walk.cursor),
    }
}

// ---- by the plan

// The search of a well-formed job from a CPU on node x. `limit` is the set of nodes that the job may get.
pub fn search(
    free: &[u32],
    distances: &[u8],
    limit: Mask,
    decoded: Job,
    x: SysNode,
) -> Option<Chosen>
    requires { Searchable free.now distances.now limit.0 (job_of decoded) x.0 }
    ensures { chosen_by result ≡ chosen free.now (order (length free.now) distances.now limit.0 (plan limit.0 (job_of decoded) x.0)) }
{
    let places = decoded.places;
    let plan = Plan::of(free.len(), limit, decoded, x);
    match plan {
        Plan::Near(set, from, cursor) => search_near(free, distances, set, from, cursor),
        Plan::Places(walk) => search_places(free, limit, places, walk),
        Plan::Closed(walk, from) => search_closed(free, distances, limit, places, walk, from),
    }
}
