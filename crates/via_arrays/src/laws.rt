//! Laws of the definitions, each on a function that does nothing.

ghost use Rattle.std.specs.Prelude.{◌≡◌, ℕ, ◌<◌, ◌↔◌, min};
ghost use Rattle.geom_rect.specs.declared.rect.Rect.{Rect};
ghost use Rattle.lef_tech.specs.declared.tech.Tech.{Tech};
ghost use Rattle.via_arrays.specs.declared.error.ArrayError.{ArrayError};
ghost use Rattle.via_arrays.specs.declared.error.StackError.{StackError};
ghost use Rattle.via_arrays.specs.declared.parts.CutArray.{CutArray};
ghost use Rattle.via_arrays.specs.declared.parts.Stack.{Stack};
ghost use Rattle.via_arrays.specs.Choice.{IsFirstRule, NoneSuits};
ghost use Rattle.via_arrays.specs.Cuts.{IsMost, count_by_division};
ghost use Rattle.via_arrays.specs.Arrays.{IsArray, IsArrayRefused};
ghost use Rattle.via_arrays.specs.Resistances.{IsResistance};
ghost use Rattle.via_arrays.specs.Stacks.{IsStack, IsLowestRefused};

/// The greatest number of cuts that fit is what one division gives, up to the limit: the pitches in what a cut and its
/// enclosures leave of the extent, and one more; none where they leave less than nothing.
pub fn counts_by_division()
    ensures { (limit extent cut pitch enclosure n : ℕ) → 0 < pitch →
        (IsMost limit extent cut pitch enclosure n) ↔ (n ≡ min (count_by_division extent cut pitch enclosure) limit) }
{}

/// Two layers have one first rule at a crossing, or none.
pub fn one_first_rule()
    ensures one { (tech : Tech) (lower upper : ℕ) (crossing : Rect) (units a b : ℕ) →
        IsFirstRule tech lower upper crossing units a → IsFirstRule tech lower upper crossing units b → a ≡ b }
    ensures or_none { (tech : Tech) (lower upper : ℕ) (crossing : Rect) (units a : ℕ) →
        IsFirstRule tech lower upper crossing units a → ¬ NoneSuits tech lower upper crossing units }
{}

/// A rule gives one array at a crossing, or it is refused for one reason.
pub fn one_array_or_refusal()
    ensures one { (tech : Tech) (place : ℕ) (crossing : Rect) (units columns rows : ℕ) (a b : CutArray) →
        IsArray tech place crossing units columns rows a → IsArray tech place crossing units columns rows b → a ≡ b }
    ensures or_refused { (tech : Tech) (place : ℕ) (crossing : Rect) (units columns rows : ℕ) (a : CutArray)
        (e : ArrayError) → IsArray tech place crossing units columns rows a →
        ¬ IsArrayRefused tech place crossing units columns rows e }
    ensures one_refusal { (tech : Tech) (place : ℕ) (crossing : Rect) (units columns rows : ℕ) (e f : ArrayError) →
        IsArrayRefused tech place crossing units columns rows e →
        IsArrayRefused tech place crossing units columns rows f → e ≡ f }
{}

/// A fraction is one resistance.
pub fn one_resistance()
    ensures { (n d a b : ℕ) → IsResistance n d a → IsResistance n d b → a ≡ b }
{}

/// There is one stack at a crossing, or none for one reason, want of memory aside.
pub fn one_stack_or_refusal()
    ensures one { (tech : Tech) (crossing : Rect) (units columns rows from to : ℕ) (a b : Stack) →
        IsStack tech crossing units columns rows from to a → IsStack tech crossing units columns rows from to b →
        a ≡ b }
    ensures or_refused { (tech : Tech) (crossing : Rect) (units columns rows from to : ℕ) (a : Stack)
        (e : StackError) → IsStack tech crossing units columns rows from to a →
        ¬ IsLowestRefused tech crossing units columns rows from to e }
    ensures one_refusal { (tech : Tech) (crossing : Rect) (units columns rows from to : ℕ) (e f : StackError) →
        IsLowestRefused tech crossing units columns rows from to e →
        IsLowestRefused tech crossing units columns rows from to f → e ≡ f }
{}
