//! Laws of the values of options, on functions that do nothing.
ghost use Rattle.std.specs.Prelude.{◌≡◌, ◌≤◌, ◌<◌, ◌^◌, ℕ, List};
ghost use Rattle.number_place.specs.declared.place.Refused.{Refused as Reason};
ghost use Rattle.script_options.specs.declared.number.Quantity.{Quantity as Kind};
ghost use Rattle.script_options.specs.declared.number.Quantity.TheVariants as quantities;
ghost use Rattle.script_options.specs.declared.table.ValueForm.{ValueForm as Form};
ghost use Rattle.script_options.specs.Number.{IsNumberIn};
ghost use Rattle.script_options.specs.Value.{Refuses};

use number_place::{texts_have_one_number, values_fit_their_places};

/// A word is refused for at most one reason as a value of a form.
pub fn values_have_one_refusal()
    ensures { (form : Form) (text : List ℕ) (a b : Reason) → Refuses form text a → Refuses form text b → a ≡ b }
{
    texts_have_one_number();
}

/// A word stands for at most one number.
pub fn numbers_have_one_value()
    ensures { (quantity : Kind) (text : List ℕ) (a b : ℕ) → IsNumberIn quantity text a → IsNumberIn quantity text b → a ≡ b }
{
    texts_have_one_number();
}

/// A number is within its limits: lengths to 10^11 pm, widths among them above 0, counts from 1 to 10^6.
pub fn numbers_keep_limits()
    ensures lengths { (text : List ℕ) (value : ℕ) → IsNumberIn quantities.Length text value → value ≤ 10 ^ 11 }
    ensures widths { (text : List ℕ) (value : ℕ) → IsNumberIn quantities.Width text value → (0 < value) × (value ≤ 10 ^ 11) }
    ensures counts { (text : List ℕ) (value : ℕ) → IsNumberIn quantities.Count text value → (0 < value) × (value ≤ 10 ^ 6) }
{
    values_fit_their_places();
}
