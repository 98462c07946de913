//! The law, on a function that does nothing.
ghost use Rattle.std.specs.Prelude.{◌≢◌, ℕ, List, Contains, Ok};
ghost use Rattle.pdn_script.specs.declared.record.Domain.{Domain};
ghost use Rattle.pdn_script.specs.declared.record.Script.{Script};
ghost use Rattle.pdn_script.specs.Format.{ReadsScript};
ghost use Rattle.pdn_script.specs.Limits.{ScriptKeeps};

/// Of a script that is read the power net of a domain is not its ground net.
pub fn read_scripts_have_two_nets()
    ensures { (text : List ℕ) (script : Script) (domain : Domain) → ReadsScript text (Ok script) → ScriptKeeps script
        → Contains script.domains domain → domain.power ≢ domain.ground }
{}
