// Reads a node-list text by its form: empty, `all`, items, and items after `!` or `+`.

ghost use Rattle.std.specs.Prelude.{◌≡◌, ◌^◌, ◌<◌, ◌≤◌, length, drop};
ghost use Rattle.rules.specs.Masks.{most_nodes, size};
ghost use Rattle.rules.specs.Text.{form_of};
ghost use Rattle.nodelist.specs.Reader.{items_read};
ghost use Rattle.nodelist.specs.Forms.{except_for, ranked_for, form_read, mask_read};

use crate::reader::read_items;
use nodemask::{Mask, Ranks};

// A text of items: the nodes named.
fn read_plain(text: &[u8], nodes: usize) -> Option<Mask>
    requires { nodes ≤ most_nodes }
    ensures { mask_read result ≡ items_read nodes text.now }
{
    let named = read_items(text, nodes)?;
    Some(Mask::from(named))
}

// A text after `!`: all nodes below N not named.
fn read_except(text: &[u8], nodes: usize) -> Option<Mask>
    requires { (0 < length text.now) × (nodes ≤ most_nodes) }
    ensures { mask_read result ≡ except_for nodes (items_read nodes (drop 1 text.now)) }
{
    let named = read_items(&text[1..], nodes)?;
    Some(Mask::from(named).complement(nodes))
}

// A text after `+`: the allowed nodes whose ranks are named.
fn read_ranks(text: &[u8], allowed: Mask) -> Option<Mask>
    requires { 0 < length text.now }
    ensures { mask_read result ≡ ranked_for allowed.0 (items_read (size most_nodes allowed.0) (drop 1 text.now)) }
{
    let named = read_items(&text[1..], allowed.size() as usize)?;
    Some(allowed.ranked(Ranks::from(named)))
}

// The nodes that a text names, by its form, if it is in order.
pub fn read_form(nodes: usize, allowed: Mask, text: &[u8]) -> Option<Mask>
    requires { (nodes ≤ most_nodes) × (allowed.0 < 2 ^ nodes) }
    ensures { mask_read result ≡ form_read nodes allowed.0 (form_of text.now) }
{
    if text.is_empty() {
        return Some(Mask::EMPTY);
    }
    if text == b"all".as_slice() {
        return Some(allowed);
    }
    match text[0] {
        b'!' => read_except(text, nodes),
        b'+' => read_ranks(text, allowed),
        _ => read_plain(text, nodes),
    }
}
