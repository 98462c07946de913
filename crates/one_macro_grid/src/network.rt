//! There is one network, or one refusal.
ghost use Rattle.std.specs.Prelude.{◌≡◌, ◌≢◌};
ghost use Rattle.bias_file.specs.declared.record.Bias.{Bias};
ghost use Rattle.bias_file.specs.Limits.{BiasKeeps};
ghost use Rattle.def_design.specs.declared.record.Design.{Design};
ghost use Rattle.grid_network.specs.declared.error.ExtractError.{ExtractError};
ghost use Rattle.grid_network.specs.declared.error.ExtractError.TheVariants.{Want};
ghost use Rattle.grid_network.specs.declared.extracted.Extracted.{Extracted};
ghost use Rattle.lef_cells.specs.declared.record.Cells.{Cells};
ghost use Rattle.lef_cells.specs.Limits.{CellsKeep};
ghost use Rattle.lef_tech.specs.declared.tech.Tech.{Tech};
ghost use Rattle.macro_extract.specs.Extraction.{IsMacroExtracted, IsMacroExtractRefused};
ghost use Rattle.macro_grid.specs.declared.record.MacroGrid.{MacroGrid};

use grid_network::one_network_or_refusal;

/// A grid over blocks, a design and a bias file have one network.
pub fn one_network_over_blocks()
    ensures { (drawn : MacroGrid) (tech : Tech) (cells : Cells) (design : Design) (bias : Bias) (a b : Extracted)
        → CellsKeep cells → BiasKeeps bias → IsMacroExtracted drawn tech cells design bias a
        → IsMacroExtracted drawn tech cells design bias b → a ≡ b }
{
    one_network_or_refusal();
}

/// Where a network is extracted no extraction is refused, want of memory aside.
pub fn extracted_or_refused_over_blocks()
    ensures { (drawn : MacroGrid) (tech : Tech) (cells : Cells) (design : Design) (bias : Bias) (extracted : Extracted)
        (error : ExtractError) → CellsKeep cells → BiasKeeps bias
        → IsMacroExtracted drawn tech cells design bias extracted
        → IsMacroExtractRefused drawn tech cells design bias error → error ≡ Want }
{
    one_network_or_refusal();
}

/// An extraction that is refused is refused in one way, want of memory aside.
pub fn one_refusal_of_extraction_over_blocks()
    ensures { (drawn : MacroGrid) (tech : Tech) (cells : Cells) (design : Design) (bias : Bias) (a b : ExtractError)
        → CellsKeep cells → BiasKeeps bias → IsMacroExtractRefused drawn tech cells design bias a
        → IsMacroExtractRefused drawn tech cells design bias b → a ≢ Want → b ≢ Want → a ≡ b }
{}
