//! Laws of the definitions, each on a function that does nothing.
ghost use Rattle.std.specs.Prelude.{◌≡◌, ℕ, ◌<◌, ℤ, ◌≤ℤ◌, List, Option, Some};
ghost use Rattle.lef_tech.specs.declared.layer.RoutingLayer.{RoutingLayer as Wires};
ghost use Rattle.lef_tech.specs.declared.layer.CutLayer.{CutLayer as Cuts};
ghost use Rattle.lef_tech.specs.Limits.{Rise, RoutingKeeps, CutKeeps};
ghost use Rattle.via_arrays.specs.declared.parts.CutArray.{CutArray as Array};
ghost use Rattle.em_rules.specs.Density.{IsTableDensity};
ghost use Rattle.em_rules.specs.Limit.{IsWireLimit, IsCutLimit};
ghost use Rattle.em_rules.specs.declared.words.Verdict.{Verdict as Word};
ghost use Rattle.em_rules.specs.declared.words.Verdict.TheVariants.{Safe, Unsafe};
ghost use Rattle.em_rules.specs.Verdict.{IsVerdict, EachKeeps, NoneKeeps, verdict_by_ends};

/// A wire has one limit, or none, and so has an array of cuts. In particular a table has one density at each place: at a
/// point of the table the lines on both sides tell its entry.
pub fn one_limit()
    ensures densities { (points : List (ℕ × ℕ)) (n d a b : ℕ) → Rise points → 0 < d → IsTableDensity points n d a →
        IsTableDensity points n d b → a ≡ b }
    ensures wires { (layer : Wires) (width : ℤ) (units : ℕ) (a b : Option ℕ) → RoutingKeeps layer → 0 < units →
        IsWireLimit layer width units a → IsWireLimit layer width units b → a ≡ b }
    ensures arrays { (layer : Cuts) (array : Array) (units : ℕ) (a b : Option ℕ) → CutKeeps layer → 0 < units →
        IsCutLimit layer array units a → IsCutLimit layer array units b → a ≡ b }
{}

/// An interval has one verdict on a limit.
pub fn one_verdict()
    ensures { (low high : ℤ) (limit : Option ℕ) (a b : Word) → low ≤ℤ high → IsVerdict low high limit a →
        IsVerdict low high limit b → a ≡ b }
{}

/// What the ends of an interval tell is true of each of its currents, over any denominator: where it is judged safe each
/// keeps the limit, and where it is judged unsafe none does. No order of the ends is asked.
pub fn ends_tell()
    ensures safe { (low high : ℤ) (limit : ℕ) → verdict_by_ends low high (Some limit) ≡ Safe →
        EachKeeps low high limit }
    ensures not_safe { (low high : ℤ) (limit : ℕ) → verdict_by_ends low high (Some limit) ≡ Unsafe →
        NoneKeeps low high limit }
    ensures exact { (low high : ℤ) (limit : Option ℕ) → low ≤ℤ high →
        IsVerdict low high limit (verdict_by_ends low high limit) }
{}
