//! The report of one resistor, and nets whose limit of drops is kept, broken and open.
ghost use Rattle.std.specs.Prelude.{All, IsTrue};
ghost use Rattle.grid_net.specs.Limits.{IsInLimit, greatest_voltage};
ghost use Rattle.signoff_report.specs.declared.records.NetLimit.{NetLimit as OfNet};
ghost use Rattle.signoff_report.specs.Limits.{AreLimitsOf};

use bound_check::{Certified, is_certificate, is_tight};
use em_rules::Verdict;
use entry_list::Entries;
use grid_net::{Load, Net, Pad, Resistor};
use outside::Name;
use signoff_report::*;
use std::alloc::AllocGlobal;
use std::process::Abort;

const VOLT: i128 = 1_000_000_000_000_000_000_000_000;

// The network of the netlist `R1 p n 1`, `V1 p 0 1`, `I1 n 0 1m`, where n is node 0, with the least strict bounds at n.
fn one_resistor(rt: &(impl AllocGlobal + Abort)) -> Certified {
    let alloc = rt.alloc();
    let resistors = vec![in alloc;
        Resistor {
            a: 1,
            b: 0,
            ohms: 1_000_000_000
        },
    ]
    .expect(rt, "a list");
    let pads = vec![in alloc;
        Pad {
            node: 1,
            volts: VOLT
        },
    ]
    .expect(rt, "a list");
    let loads = vec![in alloc;
        Load {
            node: 0,
            low: 1_000_000_000_000,
            high: 1_000_000_000_000
        },
    ]
    .expect(rt, "a list");
    let net = match Net::build(alloc, 2, resistors, pads, loads) {
        Ok(net) => net,
        Err(_) => panic!(rt; "no network"),
    };
    let high = vec![in alloc; 999_000_000_000_001_000_000_000, VOLT].expect(rt, "a list");
    let low = vec![in alloc; 998_999_999_999_999_000_000_000, VOLT].expect(rt, "a list");
    assert!(rt; high.len() == net.nodes() as usize);
    assert!(rt; low.len() == net.nodes() as usize);
    match is_certificate(&net, &high, &low) {
        Ok(()) => {}
        Err(_) => panic!(rt; "no certificate"),
    }
    match is_tight(&net, &high, &low) {
        Ok(()) => Certified::keep(net, high, low, 7),
        Err(_) => panic!(rt; "not tight"),
    }
}

fn names(rt: &(impl AllocGlobal + Abort)) -> Vec<Name> {
    let alloc = rt.alloc();
    let n = Name::new(alloc, b"n").expect(rt, "a name");
    let p = Name::new(alloc, b"p").expect(rt, "a name");
    vec![in alloc; n, p].expect(rt, "a list")
}

const WITHOUT_LIMITS: &[u8] = b"pdn report 1
node n 0.998999999 0.999000001
node p 1.000000000 1.000000000
branch R1 p n 0.000999999 0.001000001 none NOLIMIT
end
";

#[test]
fn one_resistor_solved(rt: HostRuntime) {
    let certified = one_resistor(&rt);
    let names = names(&rt);
    assert!(rt; names.len() == certified.net().nodes() as usize);
    let limits = no_limits(rt.alloc(), certified.net()).expect(&rt, "limits");
    let text = report_text(rt.alloc(), &certified, &names, &limits).expect(&rt, "a report");
    assert!(rt; text.as_slice() == WITHOUT_LIMITS);
    let told = summary(&certified, &limits);
    assert!(rt;
        told == Summary {
            nodes: 2,
            resistors: 1,
            pads: 1,
            safe: 0,
            unsafe_: 0,
            undecided: 0,
            no_limit: 1,
            sweeps: 7
        }
    );
}

// Whether each supply is within 10 V.
fn supplies_fit(nets: &[NetLimit]) -> bool
    ensures { IsTrue result → All (λ (n : OfNet). IsInLimit greatest_voltage n.supply) nets.now }
{
    for net in nets {
        if net.supply < -10 * VOLT || 10 * VOLT < net.supply {
            return false;
        }
    }
    true
}

// Whether limits are those of a network.
fn fit(net: &Net, limits: &Limits) -> bool
    ensures { IsTrue result → AreLimitsOf net.now limits.now }
{
    let nets = limits.nets.as_slice();
    limits.branches.as_slice().len() == net.resistors().len()
        && limits.net_of.as_slice().len() == net.nodes() as usize
        && supplies_fit(nets)
        && nets.len() <= 4_294_967_295
}

// The limits of the network of one resistor, with one net of both nodes and one without a node.
fn limits(
    rt: &(impl AllocGlobal + Abort),
    limit: u128,
    supply: i128,
    drop: Option<i128>,
) -> Limits {
    let alloc = rt.alloc();
    let all = NetLimit {
        name: Name::new(alloc, b"VDD").expect(rt, "a name"),
        supply,
        drop,
    };
    let none = NetLimit {
        name: Name::new(alloc, b"VSS").expect(rt, "a name"),
        supply: 0,
        drop: Some(0),
    };
    Limits {
        branches: Entries::new(vec![in alloc; Some(limit)].expect(rt, "a list")),
        nets: Entries::new(vec![in alloc; all, none].expect(rt, "a list")),
        net_of: Entries::new(vec![in alloc; 0, 0].expect(rt, "a list")),
    }
}

const MICROVOLT: i128 = 1_000_000_000_000_000_000;

// A net with a supply of 1 V: n is 0.999999 to 1.000001 mV below it.
#[test]
fn limits_of_drops(rt: HostRuntime) {
    let certified = one_resistor(&rt);
    let names = names(&rt);
    assert!(rt; names.len() == certified.net().nodes() as usize);
    for (supply, drop, want, line) in [
        (
            VOLT,
            Some(1_000_001_000 * MICROVOLT / 1_000_000),
            Verdict::Safe,
            "net VDD 0.001000001000000000000000 SAFE",
        ),
        (
            VOLT,
            Some(1_000_000_999 * MICROVOLT / 1_000_000),
            Verdict::Undecided,
            "net VDD 0.001000000999000000000000 OPEN",
        ),
        (
            VOLT,
            Some(999_999_000 * MICROVOLT / 1_000_000),
            Verdict::Undecided,
            "net VDD 0.000999999000000000000000 OPEN",
        ),
        (
            VOLT,
            Some(999_998_999 * MICROVOLT / 1_000_000),
            Verdict::Unsafe,
            "net VDD 0.000999998999000000000000 UNSAFE",
        ),
        (
            998_000 * MICROVOLT,
            Some(2_000 * MICROVOLT),
            Verdict::Safe,
            "net VDD 0.002000000000000000000000 SAFE",
        ),
        (
            998_000 * MICROVOLT,
            Some(1_999 * MICROVOLT),
            Verdict::Unsafe,
            "net VDD 0.001999000000000000000000 UNSAFE",
        ),
        (VOLT, None, Verdict::NoLimit, "net VDD none NOLIMIT"),
    ] {
        let limits = limits(&rt, 1_000_000_000_000, supply, drop);
        assert!(rt; fit(certified.net(), &limits));
        assert!(rt; limits.nets.as_slice().len() == 2);
        assert!(rt; net_verdict(&certified, &limits, 0) == want, "{line}");
        assert!(rt; net_verdict(&certified, &limits, 1) == Verdict::Safe);
        let text = report_text(rt.alloc(), &certified, &names, &limits).expect(&rt, "a report");
        let text = String::from_utf8(text).expect(&rt, "text");
        assert!(rt; text.contains(line), "{line} in {text}");
        let told = summary(&certified, &limits);
        assert!(rt; told.safe == if want == Verdict::Safe { 2 } else { 1 });
        assert!(rt; told.unsafe_ == if want == Verdict::Unsafe { 1 } else { 0 });
        assert!(rt; told.no_limit == if want == Verdict::NoLimit { 1 } else { 0 });
    }
}

const WITH_LIMITS: &[u8] = b"pdn report 1
net VDD 0.002000000000000000000000 SAFE
net VSS 0.000000000000000000000000 SAFE
node n 0.998999999 0.999000001
node p 1.000000000 1.000000000
branch R1 p n 0.000999999 0.001000001 0.000999998999999 UNSAFE
end
";

// The limit of a branch that is kept at its end, open and broken.
#[test]
fn limits_of_a_branch(rt: HostRuntime) {
    let certified = one_resistor(&rt);
    let names = names(&rt);
    assert!(rt; names.len() == certified.net().nodes() as usize);
    for (limit, want) in [
        (1_000_001_000_000, Verdict::Safe),
        (1_000_000_999_999, Verdict::Undecided),
        (999_999_000_000, Verdict::Undecided),
        (999_998_999_999, Verdict::Unsafe),
        (u128::MAX, Verdict::Safe),
    ] {
        let limits = limits(&rt, limit, VOLT, Some(2_000 * MICROVOLT));
        assert!(rt; fit(certified.net(), &limits));
        assert!(rt; certified.net().resistors().len() == 1);
        assert!(rt; branch_verdict(&certified, &limits, 0) == want, "{limit}");
    }
    let limits = limits(&rt, 999_998_999_999, VOLT, Some(2_000 * MICROVOLT));
    assert!(rt; fit(certified.net(), &limits));
    let text = report_text(rt.alloc(), &certified, &names, &limits).expect(&rt, "a report");
    assert!(rt; text.as_slice() == WITH_LIMITS);
}
