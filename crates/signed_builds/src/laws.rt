//! The law, on a function that does nothing of its own.
ghost use Rattle.std.specs.Prelude.{◌≡◌, ℤ, List, Option};
ghost use Rattle.building.specs.Building.{Design, IsDesignOf, AreOutputsOf};
ghost use Rattle.building.specs.Inputs.{FiveTexts};
ghost use Rattle.building.specs.declared.outputs.Outputs.{Outputs as Texts};
ghost use Rattle.grid_signing.specs.Signing.{AreSignedTexts};
ghost use Rattle.grid_signing.specs.declared.signed.SignedGrid.{SignedGrid as Signed};
ghost use Rattle.rewired_networks.specs.Over.{HasOneDomain};
ghost use Rattle.signing_off.specs.Inputs.{WiredTexts};
ghost use Rattle.signing_off.specs.Signing.{WiredDesign, IsWiredDesign};
ghost use Rattle.signed_builds.specs.Again.{AreOfBuild};

use bias_file::texts_have_one_bias;
use def_design::texts_have_one_placed_design;
use lef_cells::texts_have_one_record as cells_have_one_record;
use lef_tech::texts_have_one_tech;
use placed_designs::read_designs_are_placed;
use rewired_networks::rewired_networks_are_the_same;

/// Where a build draws over one domain, the DEF that it writes, signed off as wiring with the same
/// technology, cells, placed design and bias file, has the same network, whatever proposes the certificates; so the netlist
/// that is written is the same, byte for byte.
pub fn built_wiring_is_signed_off_alike()
    ensures network { (told told' : Option (List ℤ × List ℤ)) (t : FiveTexts) (w : WiredTexts) (built : Design)
        (outputs : Texts) (wired : WiredDesign) → IsDesignOf told t built → HasOneDomain built.grid
        → AreOutputsOf built outputs → AreOfBuild t outputs w → IsWiredDesign told' w wired
        → wired.signing.extracted ≡ built.extracted }
    ensures netlist { (told told' : Option (List ℤ × List ℤ)) (t : FiveTexts) (w : WiredTexts) (built : Design)
        (outputs : Texts) (wired : WiredDesign) (signed : Signed) → IsDesignOf told t built
        → HasOneDomain built.grid → AreOutputsOf built outputs → AreOfBuild t outputs w → IsWiredDesign told' w wired
        → AreSignedTexts wired.grid wired.signing signed → signed.netlist ≡ outputs.netlist }
{
    texts_have_one_tech();
    cells_have_one_record();
    texts_have_one_placed_design();
    texts_have_one_bias();
    read_designs_are_placed();
    rewired_networks_are_the_same();
}
