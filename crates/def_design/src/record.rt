//! A placed design. Lengths and places are units of the design, of which a micrometre has `units`.

use entry_list::Entries;
use geom_rect::{Orient, Rect};
use outside::Name;

/// What a DEF text says of a placed design, each list in the order of the text.
#[derive(Debug, Drop)]
pub struct Design {
    /// The name after DESIGN.
    pub name: Name,
    /// How many units a micrometre has: from 1 to 20000.
    pub units: u32,
    /// The die, which has an area.
    pub die: Rect,
    pub rows: Entries<Row>,
    /// The components, each name at most once.
    pub components: Entries<Component>,
    /// The rectangles of all blockages of layers, but for those that are for fill or slots or spare the power grid.
    pub blockages: Entries<Blockage>,
    /// The regions, each name at most once.
    pub regions: Entries<Fence>,
}

/// A row of sites: `ROW name site x y orient DO count BY 1 STEP step sy`.
#[derive(Debug, Drop)]
pub struct Row {
    pub name: Name,
    pub site: Name,
    /// The place of its lower left corner.
    pub x: i64,
    pub y: i64,
    /// N, S, FN or FS.
    pub orient: Orient,
    /// How many sites it has, at least 1.
    pub count: i64,
    /// From one site to the next, where it is stated. It is not below 0.
    pub step: Option<i64>,
}

/// A component: `- name macro .. + PLACED ( x y ) orient .. ;`.
#[derive(Debug, Drop)]
pub struct Component {
    pub name: Name,
    /// The name of its macro.
    pub cell: Name,
    /// Its lower left corner and its orientation, where it is placed.
    pub place: Option<(i64, i64, Orient)>,
}

/// A rectangle of a layer in which no wire may stand.
#[derive(Debug, Drop)]
pub struct Blockage {
    /// The name of the layer.
    pub layer: Name,
    /// How far wires have to stand from it, where it says so. It is not below 0.
    pub spacing: Option<i64>,
    /// It may be without area.
    pub rect: Rect,
}

/// A region: `- name ( x y ) ( x y ) .. ;`.
#[derive(Debug, Drop)]
pub struct Fence {
    pub name: Name,
    /// At least one, and each with an area.
    pub rects: Entries<Rect>,
}
