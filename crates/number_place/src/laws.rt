//! Laws of the numbers in a place, on functions that do nothing.
ghost use Rattle.std.specs.Prelude.{ℕ, ℤ, ◌≤◌, List, Ok, Result, ◌≡◌, unsigned_abs};
ghost use Rattle.number_place.specs.declared.place.Refused.{Refused as Reason};
ghost use Rattle.number_place.specs.declared.place.NumberPlace.{NumberPlace as Place};
ghost use Rattle.number_place.specs.Place.{IsNumberAt, HasSign};

use fixed_decimal::{texts_have_one_answer, values_keep_signs};

/// A value of a place is within its limit and has its sign.
pub fn values_fit_their_places()
    ensures limit { (place : Place) (text : List ℕ) (value : ℤ) → IsNumberAt place text (Ok value) →
        unsigned_abs value ≤ place.limit }
    ensures sign { (place : Place) (text : List ℕ) (value : ℤ) → IsNumberAt place text (Ok value) →
        HasSign place.sign value }
{
    values_keep_signs();
}

/// A text has at most one answer in a place.
pub fn texts_have_one_number()
    ensures { (place : Place) (text : List ℕ) (r s : Result ℤ Reason) → IsNumberAt place text r → IsNumberAt place text s →
        r ≡ s }
{
    texts_have_one_answer();
}
