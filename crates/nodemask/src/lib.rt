// Masks of nodes, and sets of ranks: document 01, "Masks". Bit n of a mask stands for node n.

#![tactic(auto)]

ghost use Rattle.std.specs.Prelude.{◌≡◌, ◌-◌, ◌^◌, ◌<◌, ◌≤◌};
ghost use Rattle.std.specs.Iterator.{at_most};
ghost use Rattle.rules.specs.Machine.{nodes_ok};
ghost use Rattle.rules.specs.Masks.{most_nodes, has, is_empty, below, all_nodes, both, either, within, insert, rank, size, lowest, folded, remapped};
ghost use Rattle.rules.specs.SearchOrder.{target};
ghost use Rattle.nodemask.specs.Found.{found_node};
ghost use Rattle.nodemask.specs.Ranks.{wrapped, ranks_in, ranked_in};
ghost use Rattle.nodemask.specs.Taken.{TakesLowest};

use rules::{MOST_NODES, SysNode};

#[derive(Clone, Copy, Debug, PartialEq, Eq)]
pub struct Mask(pub u64);

// The rank of a node in a set: how many nodes of the set are below it.
#[derive(Clone, Copy, Debug, PartialEq, Eq)]
pub struct Rank(pub u32);

// A set of ranks: bit r stands for rank r.
#[derive(Clone, Copy, Debug, PartialEq, Eq)]
pub struct Ranks(pub u64);

// "N nodes, 1 to 64": a mask has a bit for each.
pub fn nodes_ok(nodes: usize) -> bool
    ensures { result ≡ nodes_ok nodes }
{
    (1 <= nodes) & (nodes <= MOST_NODES)
}

// The bits below n.
pub fn low_bits(n: usize) -> u64
    requires { n ≤ most_nodes }
    ensures { result ≡ all_nodes n }
{
    if n < MOST_NODES {
        return (1u64 << n) - 1;
    }
    0xffff_ffff_ffff_ffff
}

impl Ranks {
    pub const EMPTY: Ranks = Ranks(0);

    // The ranks that the bits of a word name.
    pub fn of(word: u64) -> Ranks
        ensures { result.0 ≡ word }
    {
        Ranks(word)
    }

    // The set with one rank more.
    fn insert(self, rank: Rank) -> Ranks
        requires { rank.0 < most_nodes }
        ensures { result.0 ≡ insert self.0 rank.0 }
    {
        Ranks(self.0 | (1u64 << rank.0))
    }

    // The ranks mod w: the whole set shifted by w, twice w, four times w, .. is laid over it. A `while`, since the step doubles.
    fn wrapped(self, w: u32) -> Ranks
        requires { (0 < w) × (w ≤ most_nodes) }
        ensures { result.0 ≡ wrapped w self.0 }
    {
        let mut laid = self.0;
        let mut step = w as usize;
        while step < MOST_NODES {
            laid = laid | (laid >> step);
            step += step;
        }
        Ranks(laid & low_bits(w as usize))
    }
}

impl Mask {
    pub const EMPTY: Mask = Mask(0);

    // The mask of a record's word.
    pub fn of(word: u64) -> Mask
        ensures { result.0 ≡ word }
    {
        Mask(word)
    }

    // All nodes below n.
    pub fn all_nodes(n: usize) -> Mask
        requires { n ≤ most_nodes }
        ensures { result.0 ≡ all_nodes n }
    {
        Mask(low_bits(n))
    }

    // The node is in the mask.
    pub fn has(self, node: SysNode) -> bool
        ensures { result ≡ has self.0 node.0 }
    {
        if (node.0 as usize) < MOST_NODES {
            return self.0 & (1u64 << node.0) != 0;
        }
        false
    }

    // The mask with one node more.
    pub fn insert(self, node: SysNode) -> Mask
        requires { node.0 < most_nodes }
        ensures { result.0 ≡ insert self.0 node.0 }
    {
        Mask(self.0 | (1u64 << node.0))
    }

    pub fn is_empty(self) -> bool
        ensures { result ≡ is_empty self.0 }
    {
        self == Mask::EMPTY
    }

    // All nodes of this mask are in the other.
    pub fn within(self, other: Mask) -> bool
        ensures { result ≡ within self.0 other.0 }
    {
        self.0 & other.0 == self.0
    }

    // No node is n or above.
    pub fn below(self, n: usize) -> bool
        ensures { result ≡ below n self.0 }
    {
        if n < MOST_NODES {
            return self.0 >> n == 0;
        }
        true
    }

    // The nodes in both masks.
    pub fn both(self, other: Mask) -> Mask
        ensures { result.0 ≡ both self.0 other.0 }
    {
        Mask(self.0 & other.0)
    }

    // The nodes in one of two masks.
    pub fn either(self, other: Mask) -> Mask
        ensures { result.0 ≡ either self.0 other.0 }
    {
        Mask(self.0 | other.0)
    }

    // The nodes below n that are not in the mask.
    pub fn complement(self, n: usize) -> Mask
        requires { (n ≤ most_nodes) × (self.0 < 2 ^ n) }
        ensures { result.0 ≡ all_nodes n - self.0 }
    {
        let all = Mask::all_nodes(n);
        Mask(all.0 & !self.0)
    }

    // How many nodes there are: a count of ones.
    pub fn size(self) -> u32
        ensures { result ≡ size most_nodes self.0 }
    {
        u64::count_ones(self.0)
    }

    // The rank of a node: the ones below it.
    pub fn rank(self, node: SysNode) -> Rank
        requires { node.0 < most_nodes }
        ensures { result.0 ≡ rank self.0 node.0 }
    {
        Rank(u64::count_ones(self.0 & ((1u64 << node.0) - 1)))
    }

    // The lowest node: the zeros under the first one.
    pub fn lowest(self) -> SysNode
        requires { 0 < self.0 }
        ensures { result.0 ≡ lowest most_nodes self.0 }
    {
        SysNode(u64::trailing_zeros(self.0) as u8)
    }

    // Interleave's target: the first node from the cursor field on, once round.
    pub fn target(self, cursor: u8) -> Option<SysNode>
        requires { cursor ≤ most_nodes }
        ensures { found_node result ≡ target self.0 cursor }
    {
        if self.is_empty() {
            return None;
        }
        if (cursor as usize) < MOST_NODES {
            let above = self.0 >> cursor;
            if above != 0 {
                return Some(SysNode(cursor + (u64::trailing_zeros(above) as u8)));
            }
        }
        Some(SysNode(u64::trailing_zeros(self.0) as u8))
    }

    // The mask without its lowest node.
    pub fn rest(self) -> Mask
        requires { 0 < self.0 }
        ensures { result.0 ≡ self.0 - 2 ^ lowest most_nodes self.0 }
    {
        Mask(self.0 & (self.0 - 1))
    }

    // Its nodes, lowest first.
    pub fn nodes(self) -> Nodes
        ensures { result.0 ≡ self.0 }
    {
        Nodes(self.0)
    }

    // The ranks of the mask's nodes in a set.
    pub fn ranks_in(self, set: Mask) -> Ranks
        ensures { result.0 ≡ ranks_in set.0 self.0 }
    {
        let mut out = Ranks::EMPTY;
        for node in self.nodes() {
            out = out.insert(set.rank(node));
        }
        out
    }

    // The nodes of the mask whose ranks are among these: node by node, each takes the next bit.
    pub fn ranked(self, ranks: Ranks) -> Mask
        ensures { result.0 ≡ ranked_in self.0 ranks.0 }
    {
        let mut out: u64 = 0;
        let mut bits = ranks.0;
        for node in self.nodes() {
            if bits == 0 {
                break;
            }
            out = out | ((bits % 2) << node.0);
            bits = bits / 2;
        }
        Mask(out)
    }

    // The user's bits, each taken for a rank, folded into the allowed nodes.
    pub fn folded(self, allowed: Mask) -> Mask
        requires { 0 < allowed.0 }
        ensures { result.0 ≡ folded most_nodes self.0 allowed.0 }
    {
        let ranks = Ranks::of(self.0).wrapped(allowed.size());
        allowed.ranked(ranks)
    }

    // The effective nodes, carried from the old allowed set to the new one.
    pub fn remapped(self, old: Mask, new: Mask) -> Mask
        requires { 0 < new.0 }
        ensures { result.0 ≡ remapped most_nodes self.0 old.0 new.0 }
    {
        let ranks = self.ranks_in(old).wrapped(new.size());
        new.ranked(ranks)
    }
}

// The nodes of a mask that are left to be taken.
#[derive(Drop)]
pub struct Nodes(u64);

impl Iterator for Nodes {
    type Item = SysNode;

    ghost next_gives = { TakesLowest };

    ghost remaining = { λ s. at_most s.0 };

    // The lowest one.
    #[inline]
    fn next(&mut self) -> Option<SysNode> {
        let word = self.0;
        if word == 0 {
            return None;
        }
        let left = Mask(word);
        self.0 = left.rest().0;
        Some(left.lowest())
    }
}
