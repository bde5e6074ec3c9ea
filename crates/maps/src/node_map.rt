// A job's map with the number of its nodes, and what it makes of the numbers that the job uses.

ghost use Rattle.std.specs.Prelude.{◌≡◌, true, map, ◌++◌, ◌≤◌, ltb, length, take, replicate};
ghost use Rattle.rules.specs.Basics.{all};
ghost use Rattle.rules.specs.Masks.{most_nodes};
ghost use Rattle.rules.specs.Maps.{map_size, nodes_in, bytes_for, system_node, system_mask, keeps_of};
ghost use Rattle.rules.specs.Records.{places_per_job};
ghost use Rattle.maps.specs.Judging.{IsMade};

use super::turning;
use nodemask::Mask;
use rules::{AppNode, MAP_BYTES, NO_NODE, PLACES_PER_JOB, SysNode};

// The bytes of a map, and how many nodes they list.
#[derive(Clone, Copy)]
pub struct NodeMap<'a> {
    pub bytes: &'a [u8],
    pub len: u8,
    pub ghost counted: { len ≡ length (nodes_in bytes.now) },
}

impl NodeMap<'_> {
    // "User masks .. are turned into system nodes": bit a gives the bit of entry a.
    pub fn turned_mask(self, user: u64) -> Mask
        requires { (self.len ≤ map_size) × (all (λ k. ltb k most_nodes) (nodes_in self.bytes.now) ≡ true) }
        ensures { let m = self.entry in result.0 ≡ system_mask (nodes_in m.bytes.now) user }
    {
        let mut out = Mask::EMPTY;
        for a in 0..self.len {
            if (user >> a) % 2 == 1 {
                let node = turning::node_at(self.bytes, AppNode(a));
                out = out.insert(node);
            }
        }
        out
    }

    // The system node of a place, its entry. 255 where it has none, so a closing 255 stays.
    fn place_node(self, a: AppNode) -> SysNode
        ensures { let m = self.entry in result.0 ≡ system_node (nodes_in m.bytes.now) a.0 }
    {
        if a.0 < self.len {
            return turning::node_at(self.bytes, a);
        }
        SysNode(NO_NODE)
    }

    // At most sixteen places as system nodes; zeros behind them.
    pub fn turned_places(self, places: &[u8]) -> [u8; PLACES_PER_JOB]
        requires { length places.now ≤ places_per_job }
        ensures { let m = self.entry in result ≡ take places_per_job (map (system_node (nodes_in m.bytes.now)) places.now ++ replicate places_per_job 0) }
    {
        let mut out = [0u8; PLACES_PER_JOB];
        for (i, &place) in places.iter().enumerate() {
            out[i] = self.place_node(AppNode(place)).0;
        }
        out
    }

    // The tenant's list: "it lists the application nodes it keeps of a good map, one or more, rising, else 15". The entries kept, then FF to
    // the end. No number that may come is below `least`.
    pub fn keep(self, list: &[u8]) -> Option<[u8; MAP_BYTES]>
        requires { length self.bytes.now ≡ map_size }
        ensures { let m = self.entry in IsMade (keeps_of (nodes_in m.bytes.now) list.now) (bytes_for (map (system_node (nodes_in m.bytes.now)) list.now)) result }
    {
        if list.is_empty() {
            return None;
        }
        let mut out = [NO_NODE; MAP_BYTES];
        let mut least: u8 = 0;
        for (i, &a) in list.iter().enumerate() {
            if (a < least) | (self.len <= a) {
                return None;
            }
            out[i] = turning::node_at(self.bytes, AppNode(a)).0;
            least = a + 1;
        }
        Some(out)
    }
}
