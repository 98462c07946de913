//! Lists in order, without repetitions.
ghost use Rattle.std.specs.Prelude.{◌≡◌, true, Contains};
ghost use Rattle.std.specs.List.Sorted.{IsStrictlySortedBy};
ghost use Rattle.pin_pieces.specs.inside.Steps.{ListsAll};

// Puts the items in order, each once.
pub(crate) fn put_in_order<T: Ord + Drop>(items: &mut Vec<T>)
    requires { (x y : T) → T.eq x y ≡ true → x ≡ y }
    ensures same { ListsAll (λ x. Contains items.old.items x) items.new.items }
    ensures sorted { IsStrictlySortedBy T.cmp items.new.items }
{
    items.sort_unstable();
    items.dedup();
}
