//! Laws of the definitions, each on a function that does nothing.
ghost use Rattle.std.specs.Prelude.{◌≡◌, ℕ, ◌<◌, ◌≤◌, ◌^◌, ℤ, true, List, [], All, length};
ghost use Rattle.text_lex.specs.Piece.{IsBare};
ghost use Rattle.text_lex.specs.declared.word.Mode.TheVariants.{Lines};
ghost use Rattle.lef_tech.specs.declared.tech.Tech.{Tech};
ghost use Rattle.lef_tech.specs.Limits.{TechKeeps};
ghost use Rattle.lef_cells.specs.declared.record.Cells.{Cells};
ghost use Rattle.lef_cells.specs.Limits.{CellsKeep};
ghost use Rattle.def_design.specs.declared.record.Design.{Design};
ghost use Rattle.def_design.specs.Limits.{DesignKeeps};
ghost use Rattle.pdn_script.specs.declared.record.Script.{Script};
ghost use Rattle.pdn_script.specs.Limits.{ScriptKeeps};
ghost use Rattle.bias_file.specs.declared.record.Bias.{Bias};
ghost use Rattle.bias_file.specs.Limits.{BiasKeeps};
ghost use Rattle.via_arrays.specs.Lengths.{IsUnits};
ghost use Rattle.grid_pieces.specs.declared.grid.Grid.{Grid};
ghost use Rattle.grid_pieces.specs.declared.piece.Block.{Block};
ghost use Rattle.grid_stacks.specs.declared.connect.Connect.{Connect};
ghost use Rattle.grid_stacks.specs.Crossing.{Stands};
ghost use Rattle.grid_stacks.specs.Stacking.{AreStacks};
ghost use Rattle.grid_shapes.specs.Drawing.{IsDrawingOf, PieceStands, StackStands};
ghost use Rattle.grid_net.specs.declared.error.NetError.TheVariants.{BadEnd, PadConflict};
ghost use Rattle.grid_network.specs.declared.error.ExtractError.TheVariants.{Net as OfNet};
ghost use Rattle.grid_network.specs.declared.extracted.Extracted.{Extracted};
ghost use Rattle.grid_network.specs.Network.{IsNetworkOn};
ghost use Rattle.grid_extract.specs.Extraction.{GridKeeps, IsExtractRefused};
ghost use Rattle.grid_limits.specs.Limits.{AreGridLimits, IsBranchOf};
ghost use Rattle.signoff_report.specs.declared.records.Limits.{Limits};
ghost use Rattle.signoff_report.specs.Limits.{AreLimitsOf};
ghost use Rattle.def_writer.specs.Limits.{GridFits};

use grid_extract::no_bad_end_nor_conflict;

/// The grid of a drawing keeps what is asked of a grid of which a network is extracted, and of one that is written.
pub fn drawings_are_grids()
    ensures keeps { (tech : Tech) (cells : Cells) (design : Design) (script : Script) (grid : Grid) → TechKeeps tech
        → CellsKeep cells → DesignKeeps design → ScriptKeeps script → IsDrawingOf tech cells design script grid
        → All (PieceStands tech grid) grid.pieces → All (StackStands tech grid) grid.stacks
        → length grid.pieces ≤ 4000000 → length grid.stacks ≤ 1000000 → GridKeeps grid tech }
    ensures fits { (tech : Tech) (cells : Cells) (design : Design) (script : Script) (grid : Grid) → TechKeeps tech
        → CellsKeep cells → DesignKeeps design → ScriptKeeps script → IsDrawingOf tech cells design script grid
        → All (PieceStands tech grid) grid.pieces → All (StackStands tech grid) grid.stacks
        → length grid.pieces ≤ 4000000 → length grid.stacks ≤ 1000000 → GridFits tech grid }
{}

/// A network of a grid has one name for each of its nodes.
pub fn each_node_has_a_name()
    ensures names { (tech : Tech) (grid : Grid) (e : Extracted) → IsNetworkOn grid tech e → length e.names ≡ e.net.nodes }
{}

/// Each name of a node is one word of a line, as certificates and netlists want it.
pub fn names_are_words()
    ensures words { (tech : Tech) (grid : Grid) (e : Extracted) → IsNetworkOn grid tech e
        → All (λ name. IsBare Lines true name []) e.names }
{}

/// No network of a drawn grid is refused for an end that is no node, nor for two pads of one node with two potentials.
pub fn lists_name_nodes_and_pads_agree()
    ensures no_bad_end { (tech : Tech) (cells : Cells) (design : Design) (script : Script) (grid : Grid) (bias : Bias)
        (at : ℕ) → TechKeeps tech → CellsKeep cells → DesignKeeps design → ScriptKeeps script
        → IsDrawingOf tech cells design script grid → All (PieceStands tech grid) grid.pieces
        → All (StackStands tech grid) grid.stacks → length grid.pieces ≤ 4000000 → length grid.stacks ≤ 1000000
        → BiasKeeps bias → ¬ IsExtractRefused grid tech cells design bias (OfNet (BadEnd at)) }
    ensures no_conflict { (tech : Tech) (cells : Cells) (design : Design) (script : Script) (grid : Grid) (bias : Bias)
        (node : ℕ) (first second : ℤ) → TechKeeps tech → CellsKeep cells → DesignKeeps design → ScriptKeeps script
        → IsDrawingOf tech cells design script grid → All (PieceStands tech grid) grid.pieces
        → All (StackStands tech grid) grid.stacks → length grid.pieces ≤ 4000000 → length grid.stacks ≤ 1000000
        → BiasKeeps bias → ¬ IsExtractRefused grid tech cells design bias (OfNet (PadConflict node first second)) }
{
    no_bad_end_nor_conflict();
}

/// Each resistor of a network of a grid is a wire along one of its pieces, or an array of cuts of one of its stacks, and
/// has what is asked of those, where the stacks are all that stand over the pieces.
pub fn branches_are_of_the_grid()
    ensures branches { (tech : Tech) (grid : Grid) (connects : List Connect) (blocks : List Block) (units : ℕ)
        (e : Extracted) → TechKeeps tech → IsUnits units → All (PieceStands tech grid) grid.pieces
        → AreStacks (Stands tech grid.pieces connects blocks) tech units grid.pieces grid.stacks
        → IsNetworkOn grid tech e → All (IsBranchOf tech grid) e.branches }
{}

/// The limits of a grid are limits of its network: one for each resistor, a net for each node, and supplies that are
/// voltages.
pub fn limits_are_of_the_network()
    ensures limits { (tech : Tech) (grid : Grid) (bias : Bias) (e : Extracted) (limits : Limits) → BiasKeeps bias
        → length grid.nets < 2 ^ 32 → IsNetworkOn grid tech e → AreGridLimits tech grid e.keys e.branches bias limits
        → AreLimitsOf e.net limits }
{}
