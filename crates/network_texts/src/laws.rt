//! The laws, each on a function whose body only recalls laws of the crates below.
ghost use Rattle.std.specs.Prelude.{◌≡◌, ◌≢◌, ◌<◌, ℕ, ℤ, List, length};
ghost use Rattle.answers.specs.declared.answer.Answer.{Answer as Told};
ghost use Rattle.answers.specs.declared.answer.Answer.TheVariants.{Want, Certified};
ghost use Rattle.certificate_file.specs.Record.{lists_of};
ghost use Rattle.certificate_file.specs.Written.{certificate_text};
ghost use Rattle.grid_net.specs.Level.{IsSupplied};
ghost use Rattle.grid_net.specs.Limits.{IsBuilt};
ghost use Rattle.grid_net.specs.Network.{Network};
ghost use Rattle.grid_net.specs.declared.note.Note.{Note};
ghost use Rattle.grid_network.specs.declared.extracted.Extracted.{Extracted};
ghost use Rattle.grid_network.specs.Network.{IsNetworkOn};
ghost use Rattle.grid_pieces.specs.declared.grid.Grid.{Grid};
ghost use Rattle.judging.specs.Judging.{Judges, Tests};
ghost use Rattle.judging.specs.Texts.{StandFor};
ghost use Rattle.lef_tech.specs.declared.tech.Tech.{Tech};
ghost use Rattle.spice_grid.specs.Written.{written_netlist};
ghost use Rattle.written_netlists.specs.Fits.{CanBeWritten, read_back};
ghost use Rattle.written_netlists.specs.Alone.{unmerged};
ghost use Rattle.network_texts.specs.Texts.{AreNames, CanBeChecked};

use certificate_file::{texts_have_one_certificate, written_certificates_read_back};
use drawn_grids::{each_node_has_a_name, names_are_words};
use judging::texts_are_judged_once;
use outside::Name;
use written_netlists::{nothing_to_merge, written_netlists_read_back};

/// A network of a grid reads back once it is written, where each of its nodes is supplied: then each node is an end of a
/// resistor or a pad. The network is one that was built, and the names of layers and nets are names of LEF and DEF.
pub fn extracted_networks_can_be_written()
    ensures { (tech : Tech) (grid : Grid) (e : Extracted) → AreNames tech grid → IsNetworkOn grid tech e → IsBuilt e.net
        → ((node : ℕ) → node < e.net.nodes → IsSupplied e.net node) → CanBeWritten e.net e.names e.notes }
{
    each_node_has_a_name();
    names_are_words();
}

/// What is written of a network and of a certificate of it passes the check: the two texts stand for the network, which
/// is its own network of groups, with these names, and for the two lists; the test of the certificate tells that it
/// holds; and nothing else is answered, want of memory aside.
pub fn checked_as_written(names: &[Name])
    ensures stand { (net : Network) (notes : List Note) (high low : List ℤ) → CanBeChecked net names.now notes high low
        → StandFor (written_netlist net names.now notes) (certificate_text names.now high low) (read_back net names.now)
        (unmerged net names.now) (lists_of high low) }
    ensures tested { (net : Network) (notes : List Note) (high low : List ℤ) → CanBeChecked net names.now notes high low
        → Tests (written_netlist net names.now notes) (certificate_text names.now high low) (Certified net.nodes) }
    ensures alone { (net : Network) (notes : List Note) (high low : List ℤ) (netlist certificate : List ℕ) (answer : Told)
        → CanBeChecked net names.now notes high low
        → Judges netlist certificate (written_netlist net names.now notes) (certificate_text names.now high low) answer
        → answer ≢ Want → answer ≡ Certified net.nodes }
{
    written_netlists_read_back();
    nothing_to_merge();
    written_certificates_read_back(names);
    texts_have_one_certificate(names);
    texts_are_judged_once();
}
