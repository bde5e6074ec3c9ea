// The reason of a node, "the first that fits".

ghost use Rattle.std.specs.Prelude.{◌++◌, map, ◌≡◌, ◌≤◌, ltb, length, drop};
ghost use Rattle.rules.specs.Basics.{from};
ghost use Rattle.rules.specs.Masks.{most_nodes};
ghost use Rattle.rules.specs.Reasons.{is_chosen};
ghost use Rattle.placement.specs.Searches.{chosen_by};
ghost use Rattle.reasons.specs.Reasons.{code_of, reason_by, reason_at};

use super::reach::Reach;
use nodemask::Mask;
use placement::search::Chosen;
use rules::SysNode;

// "1 not allowed; 2 outside a bind set in force; 3 unreachable, ..; 4 named by no place, ..; 5 full; 6 chosen; 7 had room but came later"
#[derive(Clone, Copy)]
pub enum Reason {
    NotAllowed,
    OutsideBind,
    Unreachable,
    NotNamed,
    Full,
    Chosen,
    Later,
}

// The code of a reason.
impl From<Reason> for u8 {
    fn from(reason: Reason) -> u8
        ensures { result ≡ code_of reason }
    {
        match reason {
            Reason::NotAllowed => 1,
            Reason::OutsideBind => 2,
            Reason::Unreachable => 3,
            Reason::NotNamed => 4,
            Reason::Full => 5,
            Reason::Chosen => 6,
            Reason::Later => 7,
        }
    }
}

// Is the node the one that is chosen? By `is_some_and`, and by `==` of what `map` gives, it was tried, and the proof didn't close.
fn is_chosen(chosen: Option<Chosen>, node: SysNode) -> bool
    ensures { result ≡ is_chosen (chosen_by chosen) node.0 }
{
    match chosen {
        Some(chosen) => chosen.node == node,
        None => false,
    }
}

// The reason of a node with this free count.
fn reason_of(limit: Mask, reach: Reach, count: u32, chosen: bool, node: SysNode) -> Reason
    ensures { code_of result ≡ reason_by limit.0 reach (ltb 0 count) chosen node.0 }
{
    if !limit.has(node) {
        return Reason::NotAllowed;
    }
    if !reach.set.has(node) {
        return Reason::OutsideBind;
    }
    if !reach.found.has(node) {
        return reach.missed;
    }
    if count == 0 {
        return Reason::Full;
    }
    if chosen {
        return Reason::Chosen;
    }
    Reason::Later
}

// Puts the reason of each node at the start of the output. There is a count for each node.
pub fn put_reasons(free: &[u32], limit: Mask, reach: Reach, chosen: Option<Chosen>, out: &mut [u8])
    requires { (length free.now ≤ most_nodes) × (length free.now ≤ length out.old) }
    ensures { out.new ≡ map (reason_at free.now limit.0 reach (chosen_by chosen)) (from 0 (length free.now)) ++ drop (length free.now) out.old }
{
    for (i, count) in free.iter().enumerate() {
        let node = SysNode(i as u8);
        let reason = reason_of(limit, reach, *count, is_chosen(chosen, node), node);
        out[i] = u8::from(reason);
    }
}
