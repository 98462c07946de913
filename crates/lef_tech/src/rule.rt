use outside::Name;

/// A rule by which arrays of cuts join two routing layers (LEF/DEF 5.8 Language Reference, "Via Rule Generate"). Lengths
/// are in pm.
#[derive(Debug, Drop)]
pub struct ViaRule {
    pub name: Name,
    /// The routing layer whose section stands earlier, by its place among the routing layers.
    pub lower: u32,
    /// The other routing layer.
    pub upper: u32,
    /// The cut layer, by its place among the cut layers.
    pub cut: u32,
    /// The two numbers of `ENCLOSURE` of the lower layer: how far its metal goes beyond the cuts. The larger one holds
    /// along the layer's direction.
    pub lower_enclosure: (u64, u64),
    /// The same of the upper layer.
    pub upper_enclosure: (u64, u64),
    /// The widths of wires of the lower layer for which the rule holds, of `WIDTH a TO b`.
    pub lower_widths: Option<(u64, u64)>,
    /// The same of the upper layer.
    pub upper_widths: Option<(u64, u64)>,
    /// The extent of a cut in x, of `RECT`.
    pub cut_x: u64,
    /// The extent of a cut in y.
    pub cut_y: u64,
    /// From the centre of a cut to that of the next one in x, of `SPACING`.
    pub pitch_x: u64,
    /// From the centre of a cut to that of the next one in y.
    pub pitch_y: u64,
    /// The resistance of one cut in nΩ, of `RESISTANCE`; where there is none that of the cut layer holds.
    pub per_cut: Option<u64>,
}
