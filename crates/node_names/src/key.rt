//! A name as a key of the table, compared and hashed in lower case. Its first bytes are kept as one number, by which most names
//! differ.
ghost use Rattle.std.specs.Prelude.{◌≡◌, Some, drop, slice_index};
ghost use Rattle.std.specs.Str.{bytes_eq};
ghost use Rattle.std.specs.Ordering.{nat_cmp};
ghost use Rattle.std.specs.List.{fold, flat_map};
ghost use Rattle.std.specs.Hash as fed;
ghost use Rattle.std.specs.Cmp.{on_per, on_equiv, on_po, on_total, partial_equiv_from_equiv};
ghost use Rattle.std.specs.Cmp.Lexicographic.{slice_cmp, nat_list_eq_equiv, nat_list_cmp_total, texts_ties, texts_po};
ghost use Rattle.std.proofs.Common.{rules, ap};
ghost use Rattle.std.proofs.lemmas.Slice.Eq.{bytes_eq-Decides};
ghost use Rattle.node_names.specs.Folding.{folded};
ghost use Rattle.node_names.specs.inside.Head.{head_from, writes_of};

use std::cmp::Ordering;
use std::hash::{Hash, Hasher};

// How many bytes of a name are kept as one number.
const HEAD: usize = 16;

// A name as it stands in a text.
#[derive(Clone, Copy)]
pub(crate) struct Key<'a> {
    pub(crate) name: &'a [u8],
    // Its first bytes in lower case as one number, the first highest. Those that it lacks count as 0.
    pub(crate) head: u128,
    ghost begun: { head ≡ head_from 0 16 (folded name.now) },
}

// The byte of a name in lower case at a place, or 0 where it has none.
fn byte_at(name: &[u8], i: usize) -> u8
    ensures { result ≡ slice_index (folded name.now) i }
{
    if i < name.len() {
        name[i].to_ascii_lowercase()
    } else {
        0
    }
}

// The first bytes of a name in lower case as one number.
pub(crate) fn head_of(name: &[u8]) -> u128
    ensures { result ≡ head_from 0 16 (folded name.now) }
{
    let mut head: u128 = 0;
    for i in 0..HEAD {
        head = head * 256 + byte_at(name, i) as u128;
    }
    head
}

// Whether two names are the same in lower case.
fn is_same(first: &[u8], second: &[u8]) -> bool
    ensures { result ≡ bytes_eq (folded first.now) (folded second.now) }
{
    if first.len() != second.len() {
        return false;
    }
    for i in 0..first.len() {
        if first[i].to_ascii_lowercase() != second[i].to_ascii_lowercase() {
            return false;
        }
    }
    true
}

// Whether two names with these heads are the same in lower case.
fn is_one(first_head: u128, first: &[u8], second_head: u128, second: &[u8]) -> bool
    requires first { first_head ≡ head_from 0 16 (folded first.now) }
    requires second { second_head ≡ head_from 0 16 (folded second.now) }
    ensures { result ≡ bytes_eq (folded first.now) (folded second.now) }
{
    if first_head != second_head {
        return false;
    }
    if first.len() != second.len() {
        return false;
    }
    if first.len() <= HEAD {
        return true;
    }
    is_same(first, second)
}

// The byte order of two names in lower case, which have these heads.
fn order_of(first_head: u128, first: &[u8], second_head: u128, second: &[u8]) -> Ordering
    requires first { first_head ≡ head_from 0 16 (folded first.now) }
    requires second { second_head ≡ head_from 0 16 (folded second.now) }
    ensures { result ≡ slice_cmp nat_cmp (folded first.now) (folded second.now) }
{
    if first_head < second_head {
        return Ordering::Less;
    }
    if second_head < first_head {
        return Ordering::Greater;
    }
    order(first, second)
}

// The byte order of two names in lower case.
fn order(first: &[u8], second: &[u8]) -> Ordering
    ensures { result ≡ slice_cmp nat_cmp (folded first.now) (folded second.now) }
{
    for i in 0..first.len() {
        if i == second.len() {
            return Ordering::Greater;
        }
        let order = first[i]
            .to_ascii_lowercase()
            .cmp(&second[i].to_ascii_lowercase());
        if order.is_ne() {
            return order;
        }
    }
    if first.len() < second.len() {
        Ordering::Less
    } else {
        Ordering::Equal
    }
}

// Hashes the bytes of a name in lower case, one by one.
fn hash_bytes<H: Hasher>(name: &[u8], state: &mut H)
    ensures { state.new ≡ fold H.write state.old (flat_map fed.u8 (folded name.now)) }
{
    for byte in name {
        state.write_u8(byte.to_ascii_lowercase());
    }
}

impl PartialEq for Key<'_> {
    ghost eq = { λ x y. bytes_eq (folded x.name.now) (folded y.name.now) };

    ghost laws = { on_per (λ k. folded k.name.now) (partial_equiv_from_equiv nat_list_eq_equiv) };

    fn eq(&self, other: &Self) -> bool {
        is_one(self.head, self.name, other.head, other.name)
    }
}

impl Eq for Key<'_> {
    ghost laws = { on_equiv (λ k. folded k.name.now) nat_list_eq_equiv };
}

impl PartialOrd for Key<'_> {
    ghost partial_cmp = { λ x y. Some (slice_cmp nat_cmp (folded x.name.now) (folded y.name.now)) };

    ghost laws = { on_po (λ k. folded k.name.now) texts_po };

    fn partial_cmp(&self, other: &Self) -> Option<Ordering> {
        Some(order_of(self.head, self.name, other.head, other.name))
    }
}

impl Ord for Key<'_> {
    ghost cmp = { λ x y. slice_cmp nat_cmp (folded x.name.now) (folded y.name.now) };

    ghost total = { on_total (λ k. folded k.name.now) nat_list_cmp_total };

    ghost matches_partial_cmp = { Prim.search rules };

    ghost matches_eq = { λ x y. texts_ties (folded x.name.now) (folded y.name.now) };

    fn cmp(&self, other: &Self) -> Ordering {
        order_of(self.head, self.name, other.head, other.name)
    }
}

// The bytes of a name after its head.
fn rest_of(name: &[u8]) -> &[u8]
    ensures { result.now ≡ drop 16 name.now }
{
    if name.len() <= HEAD {
        &name[name.len()..]
    } else {
        &name[HEAD..]
    }
}

impl Hash for Key<'_> {
    ghost hash_input = { λ k. writes_of (folded k.name.now) };

    ghost respects_eq = { λ x y e. ap writes_of ((bytes_eq-Decides (folded x.name.now) (folded y.name.now)).0 e) };

    fn hash<H: Hasher>(&self, state: &mut H) {
        state.write_u128(self.head);
        hash_bytes(rest_of(self.name), state);
    }
}
