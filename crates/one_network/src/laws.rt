//! Laws of the definitions, each on a function that does nothing of its own.
ghost use Rattle.std.specs.Prelude.{◌≡◌, ◌≢◌, ℕ, ◌<◌, List};
ghost use Rattle.lef_tech.specs.declared.tech.Tech.{Tech};
ghost use Rattle.lef_tech.specs.Limits.{TechKeeps};
ghost use Rattle.lef_cells.specs.declared.record.Cells.{Cells};
ghost use Rattle.lef_cells.specs.Limits.{CellsKeep};
ghost use Rattle.def_design.specs.declared.record.Design.{Design};
ghost use Rattle.bias_file.specs.declared.record.Bias.{Bias};
ghost use Rattle.bias_file.specs.Limits.{BiasKeeps};
ghost use Rattle.grid_pieces.specs.declared.grid.Grid.{Grid};
ghost use Rattle.grid_net.specs.Level.{IsSupplied, IsFirstUnsupplied};
ghost use Rattle.grid_net.specs.Network.{Network};
ghost use Rattle.grid_network.specs.declared.branch.Branch.{Branch};
ghost use Rattle.grid_network.specs.declared.error.ExtractError.{ExtractError};
ghost use Rattle.grid_network.specs.declared.error.ExtractError.TheVariants.{Want};
ghost use Rattle.grid_network.specs.declared.extracted.Extracted.{Extracted};
ghost use Rattle.grid_network.specs.declared.key.Key.{Key};
ghost use Rattle.grid_extract.specs.Extraction.{IsExtracted, IsExtractRefused};
ghost use Rattle.grid_limits.specs.Limits.{AreGridLimits};
ghost use Rattle.signoff_report.specs.declared.records.Limits.{Limits};

use em_rules::one_limit;
use grid_network::one_network_or_refusal;

/// A drawn grid, a design and a bias file have one network.
pub fn one_network()
    ensures { (grid : Grid) (tech : Tech) (cells : Cells) (design : Design) (bias : Bias) (a b : Extracted)
        → CellsKeep cells → BiasKeeps bias → IsExtracted grid tech cells design bias a
        → IsExtracted grid tech cells design bias b → a ≡ b }
{
    one_network_or_refusal();
}

/// Where a network is extracted no extraction is refused, want of memory aside.
pub fn extracted_or_refused()
    ensures { (grid : Grid) (tech : Tech) (cells : Cells) (design : Design) (bias : Bias) (extracted : Extracted)
        (error : ExtractError) → CellsKeep cells → BiasKeeps bias → IsExtracted grid tech cells design bias extracted
        → IsExtractRefused grid tech cells design bias error → error ≡ Want }
{
    one_network_or_refusal();
}

/// An extraction that is refused is refused in one way, want of memory aside.
pub fn one_refusal_of_extraction()
    ensures { (grid : Grid) (tech : Tech) (cells : Cells) (design : Design) (bias : Bias) (a b : ExtractError)
        → CellsKeep cells → BiasKeeps bias → IsExtractRefused grid tech cells design bias a
        → IsExtractRefused grid tech cells design bias b → a ≢ Want → b ≢ Want → a ≡ b }
{}

/// A grid has one list of limits for the nodes and the branches of a network: at a point of a table of densities the
/// lines on both sides tell one limit.
pub fn one_list_of_limits()
    ensures { (tech : Tech) (grid : Grid) (keys : List Key) (branches : List Branch) (bias : Bias) (a b : Limits)
        → TechKeeps tech → AreGridLimits tech grid keys branches bias a
        → AreGridLimits tech grid keys branches bias b → a ≡ b }
{
    one_limit();
}

/// A network has one first node without supply, and none where each node is supplied.
pub fn one_first_unsupplied()
    ensures one { (net : Network) (m n : ℕ) → IsFirstUnsupplied net m → IsFirstUnsupplied net n → m ≡ n }
    ensures none { (net : Network) (n : ℕ) → ((i : ℕ) → i < net.nodes → IsSupplied net i)
        → ¬ IsFirstUnsupplied net n }
{}
