// The nodes that a search may come to: those of its set that it reaches or that its places name.

ghost use Rattle.std.specs.Prelude.{not, ◌≡◌, ℕ, ◌*◌, ◌≤◌, ◌<◌, length};
ghost use Rattle.rules.specs.Maps.{set_of};
ghost use Rattle.rules.specs.Masks.{most_nodes, mask_of};
ghost use Rattle.rules.specs.Reasons.{is_far};
ghost use Rattle.placement.specs.Plans.{Inside};
ghost use Rattle.reasons.specs.Reasons.{Reaches};

use super::reason::Reason;
use nodemask::Mask;
use placement::plan::Plan;
use rules::{MOST_NODES, SysNode};

// "255 for unreachable"
const UNREACHABLE: u8 = 255;

// The set that the search goes over, the nodes that it reaches or names, and the reason of those that it does not.
#[derive(Clone, Copy)]
pub struct Reach {
    pub set: Mask,
    pub found: Mask,
    pub missed: Reason,
}

// The nodes that these places name.
pub fn named(places: &[u8]) -> Mask
    ensures { result.0 ≡ set_of places.now }
{
    let mut set = Mask::EMPTY;
    for node in places {
        if (*node as usize) < MOST_NODES {
            set = set.insert(SysNode(*node));
        }
    }
    set
}

// The nodes that can be reached from x.
fn reachable(n: usize, distances: &[u8], x: SysNode) -> Mask
    requires { (n ≤ most_nodes) × (length distances.now ≡ n * n) × (x.0 < n) }
    ensures { result.0 ≡ mask_of n (λ (k : ℕ). not (is_far n distances.now x.0 k)) }
{
    let start = x.0 as usize * n;
    let mut set = Mask::EMPTY;
    for (i, distance) in distances[start..start + n].iter().enumerate() {
        if *distance != UNREACHABLE {
            set = set.insert(SysNode(i as u8));
        }
    }
    set
}

// What a plan comes to, `named` being the nodes that the job's places name. Near(x) goes over its own set: under bind, the set in force.
pub fn reach_of(n: usize, distances: &[u8], limit: Mask, plan: Plan, named: Mask) -> Reach
    requires { (n ≤ most_nodes) × (length distances.now ≡ n * n) × Inside n plan }
    ensures { Reaches n distances.now limit.0 named.0 plan result }
{
    match plan {
        Plan::Near(set, x, _) => Reach {
            set,
            found: reachable(n, distances, x),
            missed: Reason::Unreachable,
        },
        Plan::Places(_) => Reach {
            set: limit,
            found: named,
            missed: Reason::NotNamed,
        },
        Plan::Closed(_, x) => Reach {
            set: limit,
            found: named.either(reachable(n, distances, x)),
            missed: Reason::NotNamed,
        },
    }
}
