//! Laws of the places of stacks, each on a function that does nothing.
ghost use Rattle.std.specs.Prelude.{◌≡◌, List, All};
ghost use Rattle.std.specs.declared.cmp.Ordering.TheVariants.{Equal};
ghost use Rattle.lef_tech.specs.declared.tech.Tech.{Tech};
ghost use Rattle.grid_pieces.specs.Limits.{PieceKeeps};
ghost use Rattle.grid_pieces.specs.declared.piece.Block.{Block};
ghost use Rattle.grid_pieces.specs.declared.piece.Piece.{Piece};
ghost use Rattle.grid_stacks.specs.Crossing.{Stands};
ghost use Rattle.grid_stacks.specs.Stacking.{ConnectKeeps, SiteKeeps, site_order};
ghost use Rattle.grid_stacks.specs.declared.connect.Connect.{Connect};
ghost use Rattle.grid_stacks.specs.declared.connect.Site.{Site};

/// Two places of stacks of one net between the same layers, with the same crossing, are one.
pub fn one_site_at_a_place()
    ensures { (tech : Tech) (pieces : List Piece) (connects : List Connect) (blocks : List Block) (a b : Site)
        → Stands tech pieces connects blocks a → Stands tech pieces connects blocks b → site_order a b ≡ Equal → a ≡ b }
{}

/// A stack may be asked for at each place at which one stands.
pub fn stacks_can_be_asked_for()
    ensures { (tech : Tech) (pieces : List Piece) (connects : List Connect) (blocks : List Block) (site : Site)
        → All (ConnectKeeps tech) connects → All PieceKeeps pieces → Stands tech pieces connects blocks site
        → SiteKeeps tech site }
{}
