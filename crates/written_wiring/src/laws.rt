//! The law, on a function that does nothing.
ghost use Rattle.std.specs.Prelude.{◌≡◌, Ok, Result};
ghost use Rattle.reading.specs.declared.error.ReadError.{ReadError as Error};
ghost use Rattle.reading.specs.Error.{Agree};
ghost use Rattle.def_design.specs.declared.record.Design.{Design};
ghost use Rattle.lef_tech.specs.declared.tech.Tech.{Tech};
ghost use Rattle.grid_pieces.specs.declared.grid.Grid.{Grid};
ghost use Rattle.def_writer.specs.Written.{written_def};
ghost use Rattle.def_wiring.specs.Format.{ReadsWires};
ghost use Rattle.def_wiring.specs.declared.error.WiresKind.{WiresKind};
ghost use Rattle.def_wiring.specs.declared.error.WiresKind.TheVariants.{Want as WantOfWires};
ghost use Rattle.def_wiring.specs.declared.record.Wires.{Wires};
ghost use Rattle.wiring_file.specs.Format.{ReadsWiring};
ghost use Rattle.wiring_file.specs.declared.error.WiringKind.{WiringKind as Kind};
ghost use Rattle.wiring_file.specs.declared.error.WiringKind.TheVariants.{Want};
ghost use Rattle.wiring_file.specs.declared.record.Wiring.{Wiring as Record};
ghost use Rattle.written_wiring.specs.Fits.{CanBeRead};
ghost use Rattle.written_wiring.specs.Wires.{wires_of};
ghost use Rattle.written_wiring.specs.WiresFit.{WiresFit};
ghost use Rattle.written_wiring.specs.Wiring.{wiring_of};

use def_wiring::written_wires_are_read;
use wiring_file::written_wirings_read_back;

/// A written grid reads back: where its names are names of DEF and its numbers keep their limits, reading the DEF that is
/// written of a design, a technology and a grid gives the grid's own vias, pieces and arrays of stacks, and nothing else;
/// want of memory aside.
pub fn written_grids_read_back()
    ensures reads { (design : Design) (tech : Tech) (grid : Grid) → CanBeRead design tech grid →
        ReadsWiring (written_def design tech grid) (Ok (wiring_of tech grid)) }
    ensures alone { (design : Design) (tech : Tech) (grid : Grid) (result : Result Record (Error Kind)) →
        CanBeRead design tech grid → ReadsWiring (written_def design tech grid) result →
        Agree Want (Ok (wiring_of tech grid)) result }
{
    written_wirings_read_back();
}

/// A written grid has its wires: where it reads back, its numbers are at most 2^30 from 0, and its nets have names of
/// their own, a reader of wiring that any tool may have written finds in the DEF that is written of a design, a technology
/// and a grid the grid's own vias, and net by net its segments and the vias of its stacks, and nothing else; want of memory
/// aside. Where the grid reads back at all, whatever wires are found in its DEF are its own (clause `only`).
pub fn written_grids_have_wires()
    ensures reads { (design : Design) (tech : Tech) (grid : Grid) → CanBeRead design tech grid → WiresFit grid →
        ReadsWires (written_def design tech grid) (Ok (wires_of tech grid)) }
    ensures alone { (design : Design) (tech : Tech) (grid : Grid) (result : Result Wires (Error WiresKind)) →
        CanBeRead design tech grid → WiresFit grid → ReadsWires (written_def design tech grid) result →
        Agree WantOfWires (Ok (wires_of tech grid)) result }
    ensures only { (design : Design) (tech : Tech) (grid : Grid) (wires : Wires) → CanBeRead design tech grid →
        ReadsWires (written_def design tech grid) (Ok wires) → wires ≡ wires_of tech grid }
{
    written_wires_are_read();
}
