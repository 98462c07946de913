//! Lists in which no entry stands twice.
ghost use Rattle.std.specs.Prelude.{◌≡◌, ◌↔◌, IsTrue, OnOk};
ghost use Rattle.grid_pieces.specs.Piece.{Among};
ghost use Rattle.grid_stacks.specs.declared.connect.Site.{Site};
ghost use Rattle.plain_drawing.specs.inside.Adding.{AddsOne};

use crate::same::same_site;
use grid_stacks::Site;
use std::alloc::AllocError;

// Adds a site, unless it is there.
pub(crate) fn add_site(sites: &mut Vec<Site>, site: Site) -> Result<(), AllocError>
    ensures { OnOk result (AddsOne site sites.old.items sites.new.items) }
{
    if has_site(sites, site) {
        return Ok(());
    }
    sites.push(site)?;
    Ok(())
}

fn has_site(sites: &[Site], site: Site) -> bool
    ensures { IsTrue result ↔ Among (λ (other : Site). other ≡ site) sites.now }
{
    sites.iter().any(|other| same_site(*other, site))
}
