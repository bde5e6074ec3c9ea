// A job's map in the table of maps, and single numbers turned by it.

ghost use Rattle.std.specs.Prelude.{◌≡◌, ◌+◌, ◌*◌, ◌≤◌, ◌<◌, ltb, length};
ghost use Rattle.std.proofs.lemmas.List.Edits.{sets};
ghost use Rattle.rules.specs.Basics.{all};
ghost use Rattle.rules.specs.Maps.{map_size, map_bytes, nodes_in, system_node, application_node};

use rules::{AppNode, MAP_BYTES, NO_NODE, SysNode};

// The map of a job: its part of the map table.
pub fn of_job(maps: &[u8], job: usize) -> &[u8]
    requires { map_size * job + map_size ≤ length maps.now }
    ensures { result.now ≡ map_bytes maps.now job }
{
    let start = MAP_BYTES * job;
    let end = start + MAP_BYTES;
    &maps[start..end]
}

// "answers back": the application number of a node; FF where it is outside the map, and no `Option`: FF is the rules' own answer
// (`application_node`).
pub fn named(bytes: &[u8], node: SysNode) -> AppNode
    requires { length bytes.now ≡ map_size }
    ensures { result.0 ≡ application_node (nodes_in bytes.now) node.0 }
{
    for (a, entry) in bytes.iter().enumerate() {
        if *entry == NO_NODE {
            return AppNode(NO_NODE);
        }
        if *entry == node.0 {
            return AppNode(a as u8);
        }
    }
    AppNode(NO_NODE)
}

// "entry a being application node a"
pub fn node_at(bytes: &[u8], a: AppNode) -> SysNode
    requires { a.0 < length (nodes_in bytes.now) }
    ensures { result.0 ≡ system_node (nodes_in bytes.now) a.0 }
{
    SysNode(bytes[a.0 as usize])
}

// All places are entries of a map of `len` nodes.
pub fn places_within(places: &[u8], len: u8) -> bool
    ensures { result ≡ all (λ a. ltb a len) places.now }
{
    places.iter().all(|a| *a < len)
}

// Another map for a job.
pub fn store(maps: &mut [u8], job: usize, bytes: [u8; MAP_BYTES])
    requires { map_size * job + map_size ≤ length maps.old }
    ensures { maps.new ≡ sets maps.old (map_size * job) bytes }
{
    let start = MAP_BYTES * job;
    let end = start + MAP_BYTES;
    maps[start..end].copy_from_slice(&bytes);
}
