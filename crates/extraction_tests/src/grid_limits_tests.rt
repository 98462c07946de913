ghost use Rattle.std.specs.Prelude.{◌≡◌, IfOk};
ghost use Rattle.lef_tech.specs.Limits.{TechKeeps};

use bias_file::{Bias, read_bias};
use entry_list::Entries;
use geom_rect::{Axis, Shape};
use grid_limits::*;
use grid_network::Key;
use grid_pieces::{Grid, Piece};
use lef_tech::{Tech, read_tech};
use outside::Name;
use signoff_report::Limits;
use std::alloc::{AllocError, Global};
use std::test::Fail;

const TECH: &[u8] =
    b"LAYER metal4\nTYPE ROUTING ;\nDIRECTION VERTICAL ;\nRESISTANCE RPERSQ 0.21 ;\nDCCURRENTDENSITY AVERAGE 10 ;\nEND metal4\n";

const BIAS: &[u8] = b"supply VDD 1.1\ndroplimit VDD 0.1\n";

// A strap of the small design, of the second of two nets.
fn grid(alloc: Global) -> Result<Grid, AllocError>
    ensures { IfOk result (λ grid. grid.units ≡ 2000) }
{
    let strap = Piece {
        net: 1,
        layer: 0,
        axis: Axis::Y,
        centre: 2000,
        width: 960,
        from: -170,
        to: 2970,
        shape: Shape::Stripe,
    };
    Ok(Grid {
        units: 2000,
        nets: Entries::new(vec![in alloc; Name::new(alloc, b"VDD")?, Name::new(alloc, b"VSS")?]?),
        power: Entries::new(vec![in alloc; true, false]?),
        domains: Entries::new(Vec::new(alloc)),
        pieces: Entries::new(vec![in alloc; strap]?),
        stacks: Entries::new(Vec::new(alloc)),
    })
}

const NODE: Key = Key {
    net: 1,
    layer: 0,
    x: 2000,
    y: 0,
};

// The limits of the grid without branches.
fn found(alloc: Global, tech: &Tech, bias: &Bias) -> Result<Limits, AllocError>
    requires { TechKeeps tech.now }
{
    let grid = grid(alloc)?;
    limits(alloc, tech, &grid, &[NODE], &[], bias)
}

// Whether a net of it has this supply and this drop limit.
fn has(limits: &Limits, net: usize, supply: i128, drop: Option<i128>) -> bool {
    match limits.nets.as_slice().get(net) {
        Some(limit) => limit.supply == supply && limit.drop == drop,
        None => false,
    }
}

#[test]
fn nets_and_nodes(rt: HostRuntime) -> Result<(), Fail> {
    let alloc = rt.alloc();
    let Ok(tech) = read_tech(alloc, TECH) else {
        panic!(rt; "the technology is refused");
    };
    let Ok(bias) = read_bias(alloc, BIAS) else {
        panic!(rt; "the bias file is refused");
    };
    let limits = found(alloc, &tech, &bias)?;
    assert!(rt; limits.net_of.as_slice() == [1].as_slice());
    assert!(rt;
        has(
            &limits,
            0,
            1_100_000_000_000_000_000_000_000,
            Some(100_000_000_000_000_000_000_000)
        )
    );
    assert!(rt; has(&limits, 1, 0, None));
    Ok(())
}
