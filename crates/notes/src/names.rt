// The table of the nodes' names.

ghost use Rattle.std.specs.Prelude.{◌≡◌, ◌≤◌};
ghost use Rattle.rules.specs.Masks.{most_nodes};
ghost use Rattle.rules.specs.Notes.{strings, table_ok};
ghost use Rattle.notes.specs.Steps.{IsMatch};

use super::list;

// "A table of N such names with their zeros, end to end, no ANY": name by name.
fn names_ok(table: &[u8], nodes: usize) -> bool
    ensures { result ≡ table_ok nodes table.now }
{
    let mut left = table;
    let mut n = 0;
    // A `while let`: an iterator over the strings hides the bytes behind the last one, which there may not be.
    while let Some((name, rest)) = list::split_string(left) {
        if !list::name_ok(name, false) {
            return false;
        }
        left = rest;
        n += 1;
    }
    left.is_empty() & (n == nodes)
}

// The same: a table that is too long is bad, whatever it holds.
pub fn table_ok(table: &[u8], nodes: usize) -> bool
    requires { nodes ≤ most_nodes }
    ensures { result ≡ table_ok nodes table.now }
{
    if nodes * list::NAME_BYTES < table.len() {
        return false;
    }
    names_ok(table, nodes)
}

// "the first match counting": the number of the first name that is this one, none if none is.
pub fn first_match(table: &[u8], word: &[u8]) -> Option<usize>
    ensures { IsMatch (strings table.now) word.now result }
{
    let mut left = table;
    let mut n = 0;
    // Tried as an iterator's `position`: its `next` proved, but that the numbers fit and that the result is the first match stayed open.
    while let Some((name, rest)) = list::split_string(left) {
        if word == name {
            return Some(n);
        }
        left = rest;
        n += 1;
    }
    None
}
