// How a job's search goes: document 01, "Search order". The modes are matched here, once.

ghost use Rattle.std.specs.Prelude.{map, ◌≡◌, ℕ, ◌≤◌, ◌<◌, take};
ghost use Rattle.rules.specs.Records.{places_per_job, closes};
ghost use Rattle.rules.specs.SearchOrder.{try, listed, plan};
ghost use Rattle.records.specs.Jobs.{turn_of, job_of};
ghost use Rattle.placement.specs.Plans.{walk_with, plan_of, Plannable, Inside};

use nodemask::Mask;
use records::job::{Job, Mode};
use rules;
use rules::{PLACES_PER_JOB, SysNode};

// A walk over the places of a list, from the cursor on, once round. `early`: place 0 comes before it.
// `moves`: a place that grants leaves itself for the last one; else the cursor stays.
#[derive(Clone, Copy)]
pub struct Walk {
    pub early: bool,
    pub moves: bool,
    pub len: u8,
    pub cursor: u8,
}

// By near(x) over a set of nodes, every grant leaving one cursor; by places; or by places and then by near(x) over the nodes that the job
// may get, the cursor staying.
#[derive(Clone, Copy)]
pub enum Plan {
    Near(Mask, SysNode, u8),
    Places(Walk),
    Closed(Walk, SysNode),
}

impl Walk {
    fn with(early: bool, moves: bool, len: u8, cursor: u8) -> Walk
        ensures { result ≡ walk_with early moves len cursor }
    {
        Walk {
            early,
            moves,
            len,
            cursor,
        }
    }
}

impl Plan {
    // "List: places in order"; M-104: "a 255 in the last place of a mode 4 list stands, unmapped, for near(CPU's node) there".
    fn of_list(places: [u8; PLACES_PER_JOB], len: u8, x: SysNode) -> Plan
        requires { len ≤ places_per_job }
        ensures as_ruled { plan_of places result ≡ listed (closes (take len places)) (map (try (turn_of 0)) (take len places)) x.0 (turn_of 0) }
        ensures inside { (n : ℕ) → x.0 < n → Inside n result }
    {
        let walk = Walk::with(false, false, len, 0);
        if rules::closes(&places[..len as usize]) {
            return Plan::Closed(walk, x);
        }
        Plan::Places(walk)
    }

    // The plan of a job, well formed on this many nodes, from a CPU on node x. `limit` is the set of nodes that the job may get.
    pub fn of(nodes: usize, limit: Mask, job: Job, x: SysNode) -> Plan
        requires { Plannable nodes limit.0 (job_of job) x.0 }
        ensures as_ruled { plan_of job.places result ≡ plan limit.0 (job_of job) x.0 }
        ensures inside { Inside nodes result }
    {
        let mode = job.mode;
        match mode {
            Mode::Default => Plan::Near(limit, x, 0),
            Mode::Preferred(_, _, effective) => {
                if effective.is_empty() {
                    return Plan::Near(limit, x, 0);
                }
                Plan::Near(limit, effective.lowest(), 0)
            }
            Mode::Bind(_, _, effective) => {
                if effective.is_empty() {
                    return Plan::Near(limit, x, 0);
                }
                Plan::Near(limit.both(effective), x, 0)
            }
            Mode::Interleave(_, _, effective, cursor) => {
                match effective.target(cursor) {
                    Some(node) => Plan::Near(limit, node, node.0 + 1),
                    None => Plan::Near(limit, x, cursor),
                }
            }
            Mode::List(len) => {
                let places = job.places;
                Plan::of_list(places, len, x)
            }
            Mode::Ring(len, cursor) => Plan::Places(Walk::with(false, true, len, cursor)),
            Mode::Early(len, cursor) => Plan::Places(Walk::with(true, true, len, cursor)),
        }
    }
}
