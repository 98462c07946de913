ghost use Rattle.std.specs.Prelude.{◌≡◌, ◌↔◌, ◌<◌, ◌≤◌, ◌^◌, ℤ, All, IsTrue, IfOk, MatchOption, length, unsigned_abs};
ghost use Rattle.via_arrays.specs.Lengths.{IsUnits};
ghost use Rattle.bias_file.specs.Limits.{BiasKeeps, PadKeeps};
ghost use Rattle.grid_pieces.specs.Limits.{PieceKeeps};
ghost use Rattle.grid_pieces.specs.Line.{piece_rect};
ghost use Rattle.grid_taps.specs.Naming.{At, layer_names};
ghost use Rattle.grid_taps.specs.Pads.{IsInUnits, AreOnPieces};
ghost use Rattle.grid_taps.specs.inside.Steps.{piece_entry, ArePieceEntries};
ghost use Rattle.grid_taps.specs.inside.Standing.{IsSpot, point, pad_on, ArePiecesAt, AreFound, AreOnWith, AreNetsOf};

use crate::column::{Column, window_of};
use crate::named::place_of;
use crate::supply::volts_at;
use bias_file::{Bias, PadAt};
use geom_rect::{Axis, Rect};
use grid_network::PadOn;
use grid_pieces::{Grid, Piece};
use lef_tech::Tech;
use name_table::NameTable;
use rect_index::{Entry, RectIndex};
use std::alloc::{AllocError, Global};
use via_arrays::PICOMETRES;

// An index of the rectangles of pieces, by their nets.
pub(crate) fn index_of(alloc: Global, pieces: &[Piece]) -> Result<RectIndex<u32>, AllocError>
    requires few { length pieces.now < 2 ^ 32 }
    requires keep { All PieceKeeps pieces.now }
    ensures { IfOk result (λ index. ArePieceEntries pieces.now index) }
{
    let mut entries = Vec::with_capacity(alloc, pieces.len())?;
    for (number, piece) in pieces.iter().enumerate() {
        entries.push(piece_entry(number as u32, piece))?;
    }
    RectIndex::new(alloc, &entries)
}

fn piece_entry(number: u32, piece: &Piece) -> Entry<u32>
    requires { PieceKeeps piece.now }
    ensures { result ≡ piece_entry number piece.now }
{
    Entry {
        group: piece.net,
        rect: rect_of(piece),
        item: number,
    }
}

fn rect_of(piece: &Piece) -> Rect
    requires { PieceKeeps piece.now }
    ensures { result ≡ piece_rect piece.now }
{
    let low = piece.centre - piece.width / 2;
    let high = piece.centre + piece.width / 2;
    match piece.axis {
        Axis::X => Rect {
            x1: piece.from,
            y1: low,
            x2: piece.to,
            y2: high,
        },
        Axis::Y => Rect {
            x1: low,
            y1: piece.from,
            x2: high,
            y2: piece.to,
        },
    }
}

// A length in units, where it is a whole number of them.
fn in_units(length: i64, units: u32) -> Option<i64>
    requires units { IsUnits units }
    requires length { unsigned_abs length ≤ 10 ^ 11 }
    ensures { MatchOption result ((whole : ℤ) → IsInUnits units length whole → ⊥) (IsInUnits units length) }
{
    let parts = length * i64::from(units);
    let picometres = PICOMETRES as i64;
    if parts % picometres == 0 {
        Some(parts / picometres)
    } else {
        None
    }
}

// The place of a pad in units of the drawing.
#[derive(Clone, Copy, Debug, PartialEq, Eq)]
struct Spot {
    x: i64,
    y: i64,
}

// It, where it is a whole number of units in x and in y.
fn spot_of(pad: &PadAt, units: u32) -> Option<Spot>
    requires units { IsUnits units }
    requires pad { PadKeeps pad.now }
    ensures { MatchOption result ((x y : ℤ) → IsInUnits units pad.now.x x → IsInUnits units pad.now.y y → ⊥)
        (IsSpot units pad.now) }
{
    let x = in_units(pad.x, units)?;
    let y = in_units(pad.y, units)?;
    Some(Spot { x, y })
}

// The numbers of the pieces of the net that have the place.
fn pieces_at(
    alloc: Global,
    grid: &Grid,
    index: &RectIndex<u32>,
    net: u32,
    spot: Spot,
) -> Result<Vec<u32>, AllocError>
    requires { ArePieceEntries grid.now.pieces index.now }
    ensures { IfOk result (λ found. ArePiecesAt grid.now.pieces net spot found.items) }
{
    index.found(alloc, net, window_of(point(spot)))
}

// The column of one point.
fn point(spot: Spot) -> Column
    ensures { result ≡ point spot }
{
    Column {
        x: spot.x,
        lower: spot.y,
        upper: spot.y,
    }
}

// Whether the layer with this number has the name.
fn is_layer(tech: &Tech, layer: u32, name: &[u8]) -> bool
    ensures { IsTrue result ↔ At (layer_names tech.now) layer name.now }
{
    match tech.routing.as_slice().get(layer as usize) {
        Some(layer) => layer.name.bytes() == name,
        None => false,
    }
}

// The nets of a grid: their names, their potentials, and an index of their pieces.
#[derive(Drop)]
pub(crate) struct Nets<'a> {
    pub(crate) names: NameTable<'a>,
    pub(crate) volts: Vec<Option<i128>>,
    pub(crate) index: RectIndex<u32>,
}

// The pad of a line on each piece on which it stands.
pub(crate) fn stands_on<'a>(
    alloc: Global,
    grid: &Grid,
    tech: &Tech,
    bias: &Bias,
    nets: &mut Nets<'a>,
    pad: &'a PadAt,
) -> Result<Vec<PadOn>, AllocError>
    requires units { IsUnits grid.now.units }
    requires bias { BiasKeeps bias.now }
    requires pad { PadKeeps pad.now }
    requires nets { AreNetsOf grid.now bias.now nets.old }
    ensures on { IfOk result (λ on. AreOnPieces grid.now tech.now bias.now pad.now on.items) }
    ensures same { nets.new ≡ nets.old }
{
    let Some(spot) = spot_of(pad, grid.units) else {
        return Ok(Vec::new(alloc));
    };
    let Some(net) = place_of(&mut nets.names, pad.net.bytes()) else {
        return Ok(Vec::new(alloc));
    };
    let Some(volts) = volts_at(&nets.volts, net) else {
        return Ok(Vec::new(alloc));
    };
    let found = pieces_at(alloc, grid, &nets.index, net, spot)?;
    on_layer(alloc, grid, tech, pad, spot, volts, &found)
}

// The pad on those of the pieces that are on its layer.
fn on_layer(
    alloc: Global,
    grid: &Grid,
    tech: &Tech,
    pad: &PadAt,
    spot: Spot,
    volts: i128,
    found: &[u32],
) -> Result<Vec<PadOn>, AllocError>
    requires spot { IsSpot grid.now.units pad.now spot }
    requires found { AreFound grid.now pad.now spot found.now }
    ensures { IfOk result (λ on. AreOnWith grid.now tech.now pad.now volts on.items) }
{
    let mut on = Vec::new(alloc);
    for number in found {
        let piece = &grid.pieces.as_slice()[*number as usize];
        if is_layer(tech, piece.layer, pad.layer.bytes()) {
            on.push(pad_on(*number, piece, spot, volts))?;
        }
    }
    Ok(on)
}

fn pad_on(number: u32, piece: &Piece, spot: Spot, volts: i128) -> PadOn
    ensures { result ≡ pad_on number piece.now spot volts }
{
    PadOn {
        piece: number,
        along: match piece.axis {
            Axis::X => spot.x,
            Axis::Y => spot.y,
        },
        volts,
    }
}
