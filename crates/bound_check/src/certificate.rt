ghost use Rattle.std.specs.Prelude.{◌≡◌, ◌<◌, ◌↔◌, ◌*ℤ◌, ◌≤ℤ◌, ℕ, ℤ, pos, length, Some, IsOk, IfOk, IfErr};
ghost use Rattle.grid_net.specs.Network.{entry_of};
ghost use Rattle.grid_net.specs.Limits.{IsBuilt};
ghost use Rattle.grid_net.specs.Solution.{IsSolution};
ghost use Rattle.grid_net.specs.Certificate.{IsCertificate};
ghost use Rattle.bound_check.specs.Failing.{first_failing, IsFailing};

use crate::by_resistor::failure_by_resistor;
use crate::fails::Fails;
use crate::flows::flows_failure;
use crate::sums::sums_failure;
use crate::values::values_failure;
use grid_net::Net;
use std::alloc::{AllocError, Global};

/// The first failing test of two lists, in the order of the tests.
pub(crate) fn first_failure(net: &Net, high: &[i128], low: &[i128]) -> Option<Fails>
    requires high_size { length high.now ≡ net.now.nodes }
    requires low_size { length low.now ≡ net.now.nodes }
    requires built { IsBuilt net.now }
    ensures { result ≡ first_failing net.now high.now low.now }
{
    let value = values_failure(high, low);
    if value.is_some() {
        return value;
    }
    let flow = flows_failure(net.resistors(), high, low);
    if flow.is_some() {
        return flow;
    }
    sums_failure(net, high, low)
}

/// The test of a certificate: a high and a low voltage for each node, in yoctovolts. It takes no memory.
///
/// The values are tested first, then the flows of the resistors, then the sums of the nodes, each in order and high
/// before low; the first test that fails is named.
/// Where all pass, each solution of the network lies between the two lists at each node.
pub fn is_certificate(net: &Net, high: &[i128], low: &[i128]) -> Result<(), Fails>
    requires high_size { length high.now ≡ net.now.nodes }
    requires low_size { length low.now ≡ net.now.nodes }
    ensures ok { IsOk result ↔ IsCertificate net.now high.now low.now }
    ensures first { IfErr result (λ f. first_failing net.now high.now low.now ≡ Some f) }
    ensures fails { IfErr result (λ f. IsFailing net.now (entry_of high.now) (entry_of low.now) f.node f.side f.found) }
    ensures bounds { IsOk result → (q : ℕ) (p c drawn : ℕ → ℤ) → IsSolution net.now q p c drawn → (i : ℕ)
        → i < net.now.nodes → ((pos q *ℤ entry_of low.now i) ≤ℤ p i) × (p i ≤ℤ (pos q *ℤ entry_of high.now i)) }
{
    let _nodes = net.nodes();
    match first_failure(net, high, low) {
        None => Ok(()),
        Some(fails) => Err(fails),
    }
}

/// Two lists of zeros, one for each node.
fn zeros(alloc: Global, nodes: usize) -> Result<(Vec<i64>, Vec<i64>), AllocError>
    ensures high { IfOk result (λ lists. length lists.0.items ≡ nodes) }
    ensures low { IfOk result (λ lists. length lists.1.items ≡ nodes) }
    ensures high_zeros { IfOk result (λ lists. (i : ℕ) → i < nodes → entry_of lists.0.items i ≡ pos 0) }
    ensures low_zeros { IfOk result (λ lists. (i : ℕ) → i < nodes → entry_of lists.1.items i ≡ pos 0) }
{
    let of_high = vec![in alloc; 0; nodes]?;
    let of_low = vec![in alloc; 0; nodes]?;
    Ok((of_high, of_low))
}

/// The first failing test of two lists, by sums that are kept for all nodes where there is memory.
fn first_failure_in(alloc: Global, net: &Net, high: &[i128], low: &[i128]) -> Option<Fails>
    requires high_size { length high.now ≡ net.now.nodes }
    requires low_size { length low.now ≡ net.now.nodes }
    requires built { IsBuilt net.now }
    ensures { result ≡ first_failing net.now high.now low.now }
{
    match zeros(alloc, net.nodes() as usize) {
        Ok((mut of_high, mut of_low)) => failure_by_resistor(
            net,
            high,
            low,
            &mut of_high,
            &mut of_low,
        ),
        Err(_) => first_failure(net, high, low),
    }
}

/// The test of a certificate, as `is_certificate`, in less time: the sums of all nodes are added up in one pass over the
/// resistors, with one division for each list, in memory for two numbers of 64 bits a node. Where there is no such memory,
/// or a sum does not fit it, the sums are added up node by node.
pub fn is_certificate_in(alloc: Global, net: &Net, high: &[i128], low: &[i128]) -> Result<(), Fails>
    requires high_size { length high.now ≡ net.now.nodes }
    requires low_size { length low.now ≡ net.now.nodes }
    ensures ok { IsOk result ↔ IsCertificate net.now high.now low.now }
    ensures first { IfErr result (λ f. first_failing net.now high.now low.now ≡ Some f) }
    ensures fails { IfErr result (λ f. IsFailing net.now (entry_of high.now) (entry_of low.now) f.node f.side f.found) }
    ensures bounds { IsOk result → (q : ℕ) (p c drawn : ℕ → ℤ) → IsSolution net.now q p c drawn → (i : ℕ)
        → i < net.now.nodes → ((pos q *ℤ entry_of low.now i) ≤ℤ p i) × (p i ≤ℤ (pos q *ℤ entry_of high.now i)) }
{
    let _nodes = net.nodes();
    match first_failure_in(alloc, net, high, low) {
        None => Ok(()),
        Some(fails) => Err(fails),
    }
}
