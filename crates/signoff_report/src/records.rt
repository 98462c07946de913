//! The limits of the branches and nets of a network.
ghost use Rattle.std.specs.Prelude.{◌≡◌, [], IfOk, replicate, length, None};
ghost use Rattle.signoff_report.specs.Limits.{AreLimitsOf};

use entry_list::Entries;
use grid_net::Net;
use outside::Name;
use std::alloc::{AllocError, Global};

/// A supply net: its name, its voltage, and how far the voltages of its nodes may be from it, on either side. Both are
/// in yoctovolts.
#[derive(Debug, Drop)]
pub struct NetLimit {
    pub name: Name,
    pub supply: i128,
    /// The limit of the drop. `None` where none is stated.
    pub drop: Option<i128>,
}

/// The limits of a network.
#[derive(Debug, Drop)]
pub struct Limits {
    /// For each resistor, in their order, the greatest current that it may carry, in femtoamperes. `None` where there is
    /// no limit.
    pub branches: Entries<Option<u128>>,
    /// The supply nets.
    pub nets: Entries<NetLimit>,
    /// For each node the place of its net among the nets. Without nets there is no entry.
    pub net_of: Entries<u32>,
}

/// The limits of a network of which none is stated: no branch has a limit, and there are no nets.
///
/// Error: want of memory.
pub fn no_limits(alloc: Global, net: &Net) -> Result<Limits, AllocError>
    ensures branches { IfOk result (λ limits. limits.branches ≡ replicate (length net.now.resistors) None) }
    ensures nets { IfOk result (λ limits. limits.nets ≡ []) }
    ensures net_of { IfOk result (λ limits. limits.net_of ≡ []) }
    ensures fit { IfOk result (λ limits. AreLimitsOf net.now limits) }
{
    let branches = vec![in alloc; None; net.resistors().len()]?;
    Ok(Limits {
        branches: Entries::new(branches),
        nets: Entries::new(Vec::new(alloc)),
        net_of: Entries::new(Vec::new(alloc)),
    })
}
