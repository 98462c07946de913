//! Byte order.
ghost use Rattle.std.specs.Prelude.{◌≡◌, ℕ, ◌↔◌, List, Contains};
ghost use Rattle.name_table.specs.ByteOrder.{IsInByteOrder};

/// Names stand in byte order in one way only: two lists in byte order with the same members are one list.
pub fn one_order()
    ensures { (first second : List (List ℕ)) → IsInByteOrder first → IsInByteOrder second
        → ((name : List ℕ) → Contains first name ↔ Contains second name) → first ≡ second }
{}
