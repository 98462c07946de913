//! The law, on a function that does nothing.
ghost use Rattle.std.specs.Prelude.{ℕ, List, All, Ok};
ghost use Rattle.text_lex.specs.Name.{IsName};
ghost use Rattle.def_wiring.specs.Format.{ReadsWires};
ghost use Rattle.def_wiring.specs.declared.record.ViaDef.{ViaDef};
ghost use Rattle.def_wiring.specs.declared.record.WiredNet.{WiredNet};
ghost use Rattle.def_wiring.specs.declared.record.Wires.{Wires};

/// The names of the nets and of the generated vias of wiring that is read are names of DEF.
pub fn read_wires_have_names()
    ensures nets { (text : List ℕ) (wires : Wires) → ReadsWires text (Ok wires) →
        All (λ (net : WiredNet). IsName net.name) wires.nets }
    ensures vias { (text : List ℕ) (wires : Wires) → ReadsWires text (Ok wires) →
        All (λ (via : ViaDef). IsName via.name) wires.vias }
{}
