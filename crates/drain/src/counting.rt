// Do the free counts match the page table? Refusal 14 of a drain.

ghost use Rattle.std.specs.Prelude.{◌≡◌, ◌<◌, length};
ghost use Rattle.rules.specs.Basics.{same};
ghost use Rattle.rules.specs.SearchOrder.{free_pages, free_counts};
ghost use Rattle.placement.specs.Grants.{Paged};

use machine::layout::Layout;
use pages;

// How many free pages a node has.
fn free_of(layout: Layout, pages: &[u8], node: usize) -> usize
    requires { Paged layout.counts.now layout.starts.now pages.now × (node < length layout.counts.now) }
    ensures { result ≡ length (free_pages layout.entry.counts.now pages.now node) }
{
    let start = layout.starts[node] as usize;
    let end = layout.starts[node + 1] as usize;
    pages::count_free(&pages[start..end])
}

// Is every node's count the number of its free pages?
pub fn counts_match(layout: Layout, pages: &[u8], free: &[u32]) -> bool
    requires { Paged layout.counts.now layout.starts.now pages.now × (length free.now ≡ length layout.counts.now) }
    ensures { result ≡ same free.now (free_counts layout.entry.counts.now pages.now) }
{
    for (node, count) in free.iter().enumerate() {
        if *count as usize != free_of(layout, pages, node) {
            return false;
        }
    }
    true
}
