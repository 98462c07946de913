ghost use Rattle.std.specs.Prelude.{◌≡◌, ◌≢◌, ◌<◌, ◌⊎◌, ◌^◌, ◌≤ℤ◌, List, All, IfOk, MatchResult, length, map, pos};
ghost use Rattle.grid_net.specs.declared.error.NetError.TheVariants.{Range};
ghost use Rattle.grid_net.specs.declared.error.Quantity.TheVariants.{Nodes};
ghost use Rattle.grid_network.specs.declared.error.ExtractError.TheVariants.{Net as OfNet};
ghost use Rattle.grid_network.specs.declared.key.Key.{Key};
ghost use Rattle.grid_network.specs.Drawing.{key_at};
ghost use Rattle.grid_network.specs.Nodes.{number_of};
ghost use Rattle.grid_network.specs.Asked.{IsDrawing};
ghost use Rattle.grid_network.specs.Network.{IsNetworkOf, IsRefused};
ghost use Rattle.grid_network.specs.inside.Steps.{TellsNumbers, IsBuiltOf, IsNotBuilt};

use crate::error::ExtractError;
use crate::extracted::Extracted;
use crate::junction::junctions;
use crate::key::Key;
use crate::nodes::named_nodes;
use crate::note::notes;
use crate::number::{Numbers, number_of};
use crate::pad::{PadOn, Tap};
use crate::place::{key_on, places};
use crate::question::numbers_of_taps;
use crate::row::{Row, branches_of, resistors_of, rows};
use entry_list::Entries;
use grid_net::{Load, Net, NetError, Pad, Quantity};
use grid_pieces::{Grid, Piece};
use lef_tech::Tech;
use std::alloc::{AllocError, Global};

// The most nodes of a network.
const MOST_NODES: usize = 2_000_000;

// The point so far along the piece with a number.
fn place_of(pieces: &[Piece], number: u32, along: i64) -> Key
    requires { number < length pieces.now }
    ensures { result ≡ key_at pieces.now number along }
{
    key_on(&pieces[number as usize], along)
}

// The refusal of a count of nodes.
fn too_many(count: usize) -> ExtractError
    ensures { result ≡ OfNet (Range Nodes 0 (pos count)) }
{
    ExtractError::Net(NetError::Range {
        quantity: Quantity::Nodes,
        at: 0,
        number: count as i128,
    })
}

// A pad on its node.
fn pad_of(pieces: &[Piece], nodes: Numbers, pad: &PadOn) -> Pad
    requires numbers { length nodes.numbers.now ≡ length nodes.places.now }
    requires piece { pad.now.piece < length pieces.now }
    ensures { (keys : List Key) → TellsNumbers keys nodes.entry.places.now nodes.entry.numbers.now
        → result
        ≡ record { node = number_of keys (key_at pieces.now pad.now.piece pad.now.along); volts = pad.now.volts } }
{
    Pad {
        node: number_of(nodes, &place_of(pieces, pad.piece, pad.along)),
        volts: pad.volts,
    }
}

// The pads on their nodes.
fn pads_of(
    alloc: Global,
    pieces: &[Piece],
    nodes: Numbers,
    pads: &[PadOn],
) -> Result<Vec<Pad>, AllocError>
    requires numbers { length nodes.numbers.now ≡ length nodes.places.now }
    requires pads { All (λ p. p.piece < length pieces.now) pads.now }
    ensures { IfOk result (λ standing. (keys : List Key) → TellsNumbers keys nodes.entry.places.now nodes.entry.numbers.now
        → standing.items
        ≡ map (λ p. record { node = number_of keys (key_at pieces.now p.piece p.along); volts = p.volts }) pads.now) }
{
    let mut standing = Vec::with_capacity(alloc, pads.len())?;
    for pad in pads {
        standing.push(pad_of(pieces, nodes, pad))?;
    }
    Ok(standing)
}

// A load on the node with a number.
fn load_at(node: u32, tap: &Tap) -> Load
    ensures { result ≡ record { node = node; low = tap.now.low; high = tap.now.high } }
{
    Load {
        node,
        low: tap.low,
        high: tap.high,
    }
}

// The loads on their nodes.
fn loads_of(
    alloc: Global,
    pieces: &[Piece],
    nodes: Numbers,
    taps: &[Tap],
) -> Result<Vec<Load>, AllocError>
    requires numbers { length nodes.numbers.now ≡ length nodes.places.now }
    requires taps { All (λ t. t.piece < length pieces.now) taps.now }
    ensures { IfOk result (λ standing. (keys : List Key) → TellsNumbers keys nodes.entry.places.now nodes.entry.numbers.now
        → standing.items
        ≡ map (λ t. record { node = number_of keys (key_at pieces.now t.piece t.along); low = t.low; high = t.high }) taps.now) }
{
    let numbers = numbers_of_taps(alloc, nodes, pieces, taps)?;
    let mut standing = Vec::with_capacity(alloc, taps.len())?;
    for (at, tap) in taps.iter().enumerate() {
        standing.push(load_at(numbers[at], tap))?;
    }
    Ok(standing)
}

// Want of memory in `Net::build` is want of memory here.
fn net_error(error: NetError) -> ExtractError
    ensures { (result ≡ ExtractError.Want) ⊎ ((result ≡ OfNet error) × (error ≢ NetError.Want)) }
{
    match error {
        NetError::Want => ExtractError::Want,
        refusal => ExtractError::Net(refusal),
    }
}

// The network of the rows, the pads and the loads.
fn net_of(
    alloc: Global,
    pieces: &[Piece],
    nodes: Numbers,
    rows: &[Row],
    pads: &[PadOn],
    taps: &[Tap],
) -> Result<Net, ExtractError>
    requires few { length nodes.places.now < 2 ^ 32 }
    requires numbers { length nodes.numbers.now ≡ length nodes.places.now }
    requires pads { All (λ p. p.piece < length pieces.now) pads.now }
    requires taps { All (λ t. t.piece < length pieces.now) taps.now }
    requires ranges { All (λ t. t.low ≤ℤ t.high) taps.now }
    requires told { (keys : List Key) × TellsNumbers keys nodes.places.now nodes.numbers.now }
    ensures { (keys : List Key) → TellsNumbers keys nodes.entry.places.now nodes.entry.numbers.now → MatchResult result
        (IsBuiltOf pieces.now keys rows.now pads.now taps.now) (IsNotBuilt pieces.now keys rows.now pads.now taps.now) }
{
    let resistors = resistors_of(alloc, rows)?;
    let pads = pads_of(alloc, pieces, nodes, pads)?;
    let loads = loads_of(alloc, pieces, nodes, taps)?;
    match Net::build(alloc, nodes.places.len() as u32, resistors, pads, loads) {
        Ok(net) => Ok(net),
        Err(error) => Err(net_error(error)),
    }
}

/// The network of a drawn grid with its pads and load taps, exactly: a node for each junction of a piece and for each
/// layer of a stack, in the byte order of the nodes' names; a resistor for each two junctions of a piece with none
/// strictly between, for each array of cuts, and no other; the pads, and the loads summed for each node. `is_drawing`
/// tells whether it may be asked for.
///
/// Errors: `Net` where there are more than 2·10^6 nodes, with their exact count, or where `Net::build` refuses the
/// lists; want of memory.
pub fn network(
    alloc: Global,
    grid: &Grid,
    tech: &Tech,
    pads: &[PadOn],
    taps: &[Tap],
) -> Result<Extracted, ExtractError>
    requires { IsDrawing (record { grid = grid.now; pads = pads.now; taps = taps.now }) tech.now }
    ensures { MatchResult result (IsNetworkOf (record { grid = grid.now; pads = pads.now; taps = taps.now }) tech.now)
        (IsRefused (record { grid = grid.now; pads = pads.now; taps = taps.now }) tech.now) }
{
    let layers = tech.routing.as_slice();
    let junctions = junctions(alloc, grid, pads, taps)?;
    let places = places(alloc, grid, &junctions)?;
    if places.len() > MOST_NODES {
        return Err(too_many(places.len()));
    }
    let notes = notes(alloc, grid.nets.as_slice(), layers, &places)?;
    let nodes = named_nodes(alloc, layers.len() as u64, &places)?;
    let numbers = Numbers {
        places: &places,
        numbers: nodes.numbers.as_slice(),
    };
    let rows = rows(alloc, grid, layers, &junctions, numbers)?;
    let branches = branches_of(alloc, &rows)?;
    let net = net_of(alloc, grid.pieces.as_slice(), numbers, &rows, pads, taps)?;
    Ok(Extracted {
        net,
        names: Entries::new(nodes.names),
        keys: Entries::new(nodes.keys),
        branches: Entries::new(branches),
        notes: Entries::new(notes),
    })
}
