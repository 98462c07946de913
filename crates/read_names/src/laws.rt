//! The laws, on functions that do nothing.
ghost use Rattle.std.specs.Prelude.{ℕ, List, All, Ok};
ghost use Rattle.text_lex.specs.Name.{IsName};
ghost use Rattle.def_design.specs.Format.{ReadsDesign};
ghost use Rattle.def_design.specs.declared.record.Design.{Design};
ghost use Rattle.lef_tech.specs.Format.{ReadsTech};
ghost use Rattle.lef_tech.specs.declared.layer.RoutingLayer.{RoutingLayer};
ghost use Rattle.lef_tech.specs.declared.layer.CutLayer.{CutLayer};
ghost use Rattle.lef_tech.specs.declared.rule.ViaRule.{ViaRule};
ghost use Rattle.lef_tech.specs.declared.tech.Tech.{Tech};

/// The name of a design that is read is a name of DEF: one bare word, and not `;`.
pub fn read_designs_have_names()
    ensures { (text : List ℕ) (design : Design) → ReadsDesign text (Ok design) → IsName design.name }
{}

/// The names of the layers and of the via rules of a technology that is read are names of LEF.
pub fn read_techs_have_names()
    ensures routing { (text : List ℕ) (tech : Tech) → ReadsTech text (Ok tech) →
        All (λ (layer : RoutingLayer). IsName layer.name) tech.routing }
    ensures cuts { (text : List ℕ) (tech : Tech) → ReadsTech text (Ok tech) →
        All (λ (layer : CutLayer). IsName layer.name) tech.cuts }
    ensures rules { (text : List ℕ) (tech : Tech) → ReadsTech text (Ok tech) →
        All (λ (rule : ViaRule). IsName rule.name) tech.rules }
{}
