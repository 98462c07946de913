use geom_rect::Run;

/// How rails are drawn along rows (OpenROAD PDN manual, add_pdn_stripe -followpins). Lengths are units of a drawing.
#[derive(Clone, Copy, Debug, PartialEq, Eq)]
pub struct RailRule {
    /// The routing layer, by its place from 0.
    pub layer: u32,
    /// Even and positive.
    pub width: i64,
    /// The ground net and the power net, each by its place from 0 in the list of nets.
    pub ground: u32,
    pub power: u32,
    /// From where to where the rails of the net go, where that is not along their rows.
    pub ground_reach: Option<Run>,
    pub power_reach: Option<Run>,
}
