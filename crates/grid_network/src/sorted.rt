//! The names of the nodes in byte order.
ghost use Rattle.std.specs.Prelude.{◌≡◌, IsPermutation};
ghost use Rattle.std.specs.Ordering.{is_lt};
ghost use Rattle.std.specs.List.Sorted.{IsSortedBy};
ghost use Rattle.grid_network.specs.inside.Steps.{name_cmp};

use crate::numbered_names::NumberedName;
use std::cmp::Ordering;

// By the numbers of the first bytes, and by the whole names where these are one.
fn by_name(a: &NumberedName, b: &NumberedName) -> Ordering
    ensures { result ≡ name_cmp a.now b.now }
{
    match a.front.cmp(&b.front) {
        Ordering::Equal => a.name.bytes().cmp(&b.name.bytes()),
        settled => settled,
    }
}

/// Puts the names in byte order.
pub(crate) fn put_in_byte_order(named: &mut Vec<NumberedName>)
    ensures same { IsPermutation named.old.items named.new.items }
    ensures sorted { IsSortedBy (λ a b. is_lt (name_cmp a b)) named.new.items }
{
    named.sort_unstable_by(|a, b| by_name(a, b));
}
