// A job's map, judged, and the bytes of a new map: request M-103, "per job a list of 1 to 64 different system nodes".

ghost use Rattle.std.specs.Prelude.{◌≡◌, true, ◌++◌, ◌≤◌, ltb, length, take, replicate};
ghost use Rattle.rules.specs.Basics.{all, keep};
ghost use Rattle.rules.specs.Maps.{map_size, no_node, bytes_for, good_nodes, set_of};
ghost use Rattle.rules.specs.Masks.{most_nodes};
ghost use Rattle.maps.specs.Judging.{is_node, Judges, IsMade};

use machine;
use nodemask::Mask;
use rules::{MAP_BYTES, NO_NODE, SysNode};

// What a good map is judged to be: the set of its nodes and how many they are.
#[derive(Clone, Copy)]
pub struct Judged {
    pub set: Mask,
    pub len: u8,
}

// How many bytes are not FF: no early exit, and a number of bytes that the compiler knows, so that it is compiled to vectors.
fn used(map: &[u8]) -> usize
    requires { length map.now ≡ map_size }
    ensures { result ≡ length (keep is_node map.now) }
{
    let mut ends: u8 = 0;
    for byte in &map[..MAP_BYTES] {
        let end = *byte == NO_NODE;
        if end {
            ends += 1;
        }
    }
    MAP_BYTES - ends as usize
}

// The set of the nodes of two parts: side by side, so that neither waits for the other.
fn both_sets(one: &[u8], other: &[u8]) -> Mask
    requires { (length other.now ≡ length one.now) × (all (λ k. ltb k most_nodes) one.now ≡ true) × (all (λ k. ltb k most_nodes) other.now ≡ true) }
    ensures { result.0 ≡ set_of (one.now ++ other.now) }
{
    let mut set = Mask::EMPTY;
    let mut more = Mask::EMPTY;
    for (node, next) in one.iter().zip(other) {
        set = set.insert(SysNode(*node));
        more = more.insert(SysNode(*next));
    }
    set.either(more)
}

// The set of some nodes: that of their halves, which both have the middle one of an odd number.
fn set_of(list: &[u8]) -> Mask
    requires { all (λ k. ltb k most_nodes) list.now ≡ true }
    ensures { result.0 ≡ set_of list.now }
{
    let from = list.len() / 2;
    let to = list.len() - from;
    both_sets(&list[..to], &list[from..])
}

// "a list of 1 to 64 different system nodes, entry a being application node a, then FF to the end": of the bytes that are not FF there are
// as many as the first bytes that are nodes of the machine, and as many different ones. None where the map is bad.
pub fn judge(nodes: usize, map: &[u8]) -> Option<Judged>
    requires { (1 ≤ nodes) × (nodes ≤ most_nodes) × (length map.now ≡ map_size) }
    ensures { Judges nodes map.now result }
{
    let len = used(map);
    let list = &map[..len];
    if (len == 0) | !machine::all_below(list, nodes) {
        return None;
    }
    let set = set_of(list);
    let different = set.size() as usize == len;
    if !different {
        return None;
    }
    Some(Judged {
        set,
        len: len as u8,
    })
}

// The bytes of a map of some nodes, filled up with FF: the first sixty-four of a longer list.
pub fn filled(list: &[u8]) -> [u8; MAP_BYTES]
    ensures { result ≡ take map_size (list.now ++ replicate map_size no_node) }
{
    let mut out = [NO_NODE; MAP_BYTES];
    rules::copy_first(list, &mut out);
    out
}

// The administrator's list: "any good list of system nodes". A list is good if its bytes, filled up with FF, are a good map with as many
// nodes as the list has entries. None where the list is bad.
pub fn listed(nodes: usize, list: &[u8]) -> Option<[u8; MAP_BYTES]>
    requires { (1 ≤ nodes) × (nodes ≤ most_nodes) }
    ensures { IsMade (good_nodes nodes list.now) (bytes_for list.now) result }
{
    let bytes = filled(list);
    let judged = judge(nodes, &bytes)?;
    if judged.len as usize != list.len() {
        return None;
    }
    Some(bytes)
}
