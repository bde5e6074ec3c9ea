// The pages of the nodes: how many each has, and where each one's stand. "Pages are numbered through".

ghost use Rattle.machine.specs.Tables.{Starts};

use rules::MOST_NODES;

// A node's pages go from its start to the next one's; the last node's end at the end of all.
#[derive(Clone, Copy)]
pub struct Layout<'a> {
    pub counts: &'a [u32],
    pub starts: &'a [u32; MOST_NODES + 1],
    pub ghost begin: { Starts counts.now starts.now },
}
