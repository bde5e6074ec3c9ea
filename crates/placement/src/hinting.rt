// Hints: pages before which the pages of a node, or those of one colour, are held. A list of calls keeps them; a single call has none.

ghost use Rattle.std.specs.Prelude.{ℕ, ◌+◌, ◌-◌, ◌*◌, ◌%◌, ◌<◌, ◌≤◌, ◌≡◌, get_or, Ok};
ghost use Rattle.rules.specs.Masks.{most_nodes};
ghost use Rattle.placement.specs.Hints.{hint_at, lowered, hinted, Named};
ghost use Rattle.placement.specs.declared.placed.Placed.TheVariants.{Granted};

use super::placed::Placed;
use rules::{MOST_NODES, Page, Refusal, SysNode};

// Five hints to a node: one for each colour, and one for all its pages.
pub const HINTS: usize = 5 * MOST_NODES;

// The colour that stands for all pages, and no `Option`: hints stand five to a node, and the fifth is for all of its pages.
pub const ALL_PAGES: usize = 4;

// Where a node's hint for a colour stands.
pub fn hint_at(node: SysNode, colour: usize) -> usize
    requires { (node.0 < most_nodes) × (colour < 5) }
    ensures { (result ≡ hint_at node.0 colour) × (result < 5 * most_nodes) }
{
    5 * (node.0 as usize) + colour
}

// Where a search of some pages begins: those that are passed over come before the hint.
pub fn search_from(hints: &[u32], at: usize, least: Page, most: Page) -> Page
    requires { least.0 ≤ most.0 }
    ensures within { (least.0 ≤ result.0) × (result.0 ≤ most.0) }
    ensures passed { (p : ℕ) → least.0 ≤ p → p < result.0 → p < get_or hints.now at 0 }
{
    if at >= hints.len() {
        return least;
    }
    Page(hints[at]).clamp(least, most)
}

// ---- the hints after a call

// The colour of a page, by its node's first page.
fn colour_of(first: Page, page: Page) -> usize
    requires { first.0 ≤ page.0 }
    ensures { result ≡ (page.0 - first.0) % 4 }
{
    ((page.0 - first.0) % 4) as usize
}

// The hints after a grant: the page was the lowest free one of the job's colour; or the lowest free one, and none of that colour is free.
fn keep_granted(
    starts: &[u32; MOST_NODES + 1],
    hints: &mut [u32; HINTS],
    job: usize,
    node: SysNode,
    page: Page,
)
    requires { Named starts.now (Ok (Granted node page)) }
    ensures { hints.new ≡ hinted starts.now job hints.old (Ok (Granted node page)) }
{
    let n = node.0 as usize;
    let own = hint_at(node, job % 4);
    if colour_of(Page(starts[n]), page) == job % 4 {
        hints[own] = page.0 + 1;
    } else {
        hints[hint_at(node, ALL_PAGES)] = page.0 + 1;
        hints[own] = starts[n + 1];
    }
}

// A hint goes down to a page that is released before it.
fn lower_hint(hints: &mut [u32; HINTS], at: usize, page: Page)
    requires { at < 5 * most_nodes }
    ensures { hints.new ≡ lowered hints.old at page.0 }
{
    hints[at] = hints[at].min(page.0);
}

// The hints after a page is placed for a job.
pub fn keep(
    starts: &[u32; MOST_NODES + 1],
    hints: &mut [u32; HINTS],
    job: usize,
    placed: Result<Placed, Refusal>,
)
    requires { Named starts.now placed }
    ensures { hints.new ≡ hinted starts.now job hints.old placed }
{
    match placed {
        Ok(Placed::Granted(node, page)) => {
            keep_granted(starts, hints, job, node, page);
        }
        Ok(Placed::Released(node, page)) => {
            let colour = colour_of(Page(starts[node.0 as usize]), page);
            lower_hint(hints, hint_at(node, ALL_PAGES), page);
            lower_hint(hints, hint_at(node, colour), page);
        }
        Err(_) => {}
    }
}
