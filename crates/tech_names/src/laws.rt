//! The law, on a function that does nothing.
ghost use Rattle.std.specs.Prelude.{ℕ, List, map, Ok};
ghost use Rattle.name_table.specs.Numbering.{AreDistinct};
ghost use Rattle.lef_tech.specs.Format.{ReadsTech};
ghost use Rattle.lef_tech.specs.declared.layer.RoutingLayer.{RoutingLayer};
ghost use Rattle.lef_tech.specs.declared.layer.CutLayer.{CutLayer};
ghost use Rattle.lef_tech.specs.declared.rule.ViaRule.{ViaRule};
ghost use Rattle.lef_tech.specs.declared.tech.Tech.{Tech};

/// No two routing layers, no two cut layers and no two via rules of a technology that is read have one name.
pub fn read_techs_have_their_own_names()
    ensures routing { (text : List ℕ) (tech : Tech) → ReadsTech text (Ok tech) →
        AreDistinct (map (λ (layer : RoutingLayer). layer.name) tech.routing) }
    ensures cuts { (text : List ℕ) (tech : Tech) → ReadsTech text (Ok tech) →
        AreDistinct (map (λ (layer : CutLayer). layer.name) tech.cuts) }
    ensures rules { (text : List ℕ) (tech : Tech) → ReadsTech text (Ok tech) →
        AreDistinct (map (λ (rule : ViaRule). rule.name) tech.rules) }
{}
