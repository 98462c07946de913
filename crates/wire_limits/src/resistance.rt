ghost use Rattle.std.specs.Prelude.{◌≡◌, ◌↔◌, ◌<◌, IsTrue, length};
ghost use Rattle.lef_tech.specs.Limits.{TechKeeps};
ghost use Rattle.wire_limits.specs.Vias.{HasCutResistance, IsPerCut};

use lef_tech::Tech;
use wire_names::NamedVia;

/// The resistance of a cut of a rule: that of the rule, else that of its cut layer.
pub fn per_cut(tech: &Tech, rule: u32) -> Option<u64>
    requires tech { TechKeeps tech.now }
    requires rule { rule < length tech.now.rules }
    ensures { IsPerCut tech.now rule result }
{
    let of_rule = &tech.rules.as_slice()[rule as usize];
    match of_rule.per_cut {
        Some(per_cut) => Some(per_cut),
        None => tech.cuts.as_slice()[of_rule.cut as usize].per_cut,
    }
}

// Whether a cut of a via has one.
pub(crate) fn has_resistance(tech: &Tech, via: &NamedVia) -> bool
    requires tech { TechKeeps tech.now }
    requires rule { via.now.rule < length tech.now.rules }
    ensures { IsTrue result ↔ HasCutResistance tech.now via.now }
{
    per_cut(tech, via.rule).is_some()
}
