ghost use Rattle.std.specs.Prelude.{◌≡◌, ◌<◌, ◌+ℤ◌, ◌-ℤ◌, ◌*ℤ◌, ◌≤ℤ◌, ◌<ℤ◌, ℕ, ℤ, pos, length, slice_index_or};
ghost use Rattle.rounding.specs.Rounding.{floor_div, ceil_div};
ghost use Rattle.grid_net.specs.declared.part.Resistor.{Resistor};
ghost use Rattle.grid_net.specs.Network.{entry_of};
ghost use Rattle.grid_net.specs.Limits.{IsInLimit};
ghost use Rattle.grid_net.specs.Solution.{IsSolution};
ghost use Rattle.grid_net.specs.Certificate.{IsCertificate, IsTight, IsRising, value_limit};
ghost use Rattle.bound_check.specs.Certified.{least_current, greatest_current, nanovolt, nanoampere, LiesWithin};

use grid_net::{Net, Resistor};
use rounding::{div_ceil, div_floor};
use std::marker::Model;

/// A nanovolt, in yoctovolts: the unit in which voltages are printed.
pub const NANOVOLT: i128 = 1_000_000_000_000_000;

/// A nanoampere, in femtoamperes: the unit in which currents are printed.
pub const NANOAMPERE: i128 = 1_000_000;

/// A network with a tight certificate of it.
///
/// Every solution of Ohm's and Kirchhoff's laws on the network, for every load within its range, lies within the bounds
/// that `voltage` and `current` tell, at each node and resistor. No certificate that is made in another way is kept:
/// both tests hold of each value of this type.
#[derive(Drop)]
pub struct Certified {
    net: Net,
    high: Vec<i128>,
    low: Vec<i128>,
    sweeps: u64,
}

impl Model for Certified {
    ghost use Rattle.bound_check.specs.Certified.{Certificate, IsKept};

    ghost Value = { Certificate };

    ghost view = { λ c. record { net = c.net; high = c.high.items; low = c.low.items; sweeps = c.sweeps } };

    ghost invariant = { λ c. IsKept
        (record { net = c.net; high = c.high.items; low = c.low.items; sweeps = c.sweeps }) };
}

/// What flows at least and at most from end a to end b of a resistor, by two lists, in femtoamperes.
fn current_between(r: &Resistor, high: &[i128], low: &[i128]) -> (i128, i128)
    requires resists { pos 1 ≤ℤ r.now.ohms }
    requires a_in { r.now.a < length high.now }
    requires b_in { r.now.b < length high.now }
    requires same { length low.now ≡ length high.now }
    requires high_values { (i : ℕ) → i < length high.now → IsInLimit value_limit (entry_of high.now i) }
    requires low_values { (i : ℕ) → i < length high.now → IsInLimit value_limit (entry_of low.now i) }
    ensures least { result.0 ≡ least_current high.now low.now r.now }
    ensures greatest { result.1 ≡ greatest_current high.now low.now r.now }
{
    let least = low[r.a as usize] - high[r.b as usize];
    let greatest = high[r.a as usize] - low[r.b as usize];
    (div_floor(least, r.ohms), div_ceil(greatest, r.ohms))
}

impl Certified {
    /// Keeps a network with two lists that are a tight certificate of it, and the number of sweeps in which they were
    /// made,
    /// of which nothing is asked. It takes no memory.
    pub fn keep(net: Net, high: Vec<i128>, low: Vec<i128>, sweeps: u64) -> Certified
        requires high_size { length high.items ≡ net.nodes }
        requires low_size { length low.items ≡ net.nodes }
        requires certificate { IsCertificate net high.items low.items }
        requires tight { IsTight net high.items low.items }
        ensures { result ≡ record { net = net; high = high.items; low = low.items; sweeps = sweeps } }
    {
        Certified {
            net,
            high,
            low,
            sweeps,
        }
    }

    /// The network.
    pub fn net(&self) -> &Net
        ensures { result.now ≡ self.now.net }
    {
        &self.net
    }

    /// The high list, in yoctovolts: in every solution each node's voltage is at most its entry.
    pub fn high(&self) -> &[i128]
        ensures value { result.now ≡ self.now.high }
        ensures size { length result.now ≡ self.now.net.nodes }
        ensures certificate { IsCertificate self.now.net self.now.high self.now.low }
        ensures tight { IsTight self.now.net self.now.high self.now.low }
        ensures bounds { (q : ℕ) (p c drawn : ℕ → ℤ) → IsSolution self.now.net q p c drawn → (i : ℕ)
            → i < self.now.net.nodes
            → p i ≤ℤ (pos q *ℤ entry_of self.now.high i) }
        // The two lists are no farther apart than any rising list.
        ensures width { (w : ℕ → ℤ) → IsRising self.now.net w → (i : ℕ) → i < self.now.net.nodes
            → (entry_of self.now.high i -ℤ entry_of self.now.low i) ≤ℤ w i }
    {
        let _nodes = self.net.nodes();
        &self.high
    }

    /// The low list, in yoctovolts: in every solution each node's voltage is at least its entry.
    pub fn low(&self) -> &[i128]
        ensures value { result.now ≡ self.now.low }
        ensures size { length result.now ≡ self.now.net.nodes }
        ensures certificate { IsCertificate self.now.net self.now.high self.now.low }
        ensures tight { IsTight self.now.net self.now.high self.now.low }
        ensures bounds { (q : ℕ) (p c drawn : ℕ → ℤ) → IsSolution self.now.net q p c drawn → (i : ℕ)
            → i < self.now.net.nodes
            → (pos q *ℤ entry_of self.now.low i) ≤ℤ p i }
        ensures width { (w : ℕ → ℤ) → IsRising self.now.net w → (i : ℕ) → i < self.now.net.nodes
            → (entry_of self.now.high i -ℤ entry_of self.now.low i) ≤ℤ w i }
    {
        let _nodes = self.net.nodes();
        &self.low
    }

    /// In how many sweeps the lists were made.
    pub fn sweeps(&self) -> u64
        ensures { result ≡ self.now.sweeps }
    {
        self.sweeps
    }

    /// Between which two voltages a node lies in every solution, in nanovolts and rounded outward, the lower one first.
    pub fn voltage(&self, node: u32) -> (i128, i128)
        requires { node < self.now.net.nodes }
        ensures low { result.0 ≡ floor_div (entry_of self.now.low node) (pos nanovolt) }
        ensures high { result.1 ≡ ceil_div (entry_of self.now.high node) (pos nanovolt) }
        ensures bounds { (q : ℕ) (p c drawn : ℕ → ℤ) → IsSolution self.now.net q p c drawn
            → LiesWithin nanovolt q (p node) result }
        // They are less than 2 nanovolts farther apart than any rising list tells.
        ensures width { (w : ℕ → ℤ) → IsRising self.now.net w
            → (pos nanovolt *ℤ ((result.1 -ℤ result.0) -ℤ pos 2)) <ℤ w node }
    {
        let _nodes = self.net.nodes();
        let low = div_floor(self.low[node as usize], NANOVOLT);
        let high = div_ceil(self.high[node as usize], NANOVOLT);
        (low, high)
    }

    /// Between which two currents from its end a to its end b a resistor lies in every solution, in nanoamperes and
    /// rounded outward, the lower one first.
    pub fn current(&self, resistor: u32) -> (i128, i128)
        requires { resistor < length self.now.net.resistors }
        ensures low { (d : Resistor) → let r = slice_index_or self.now.net.resistors resistor d in
            result.0 ≡ floor_div (least_current self.now.high self.now.low r) (pos nanoampere) }
        ensures high { (d : Resistor) → let r = slice_index_or self.now.net.resistors resistor d in
            result.1 ≡ ceil_div (greatest_current self.now.high self.now.low r) (pos nanoampere) }
        ensures bounds { (q : ℕ) (p c drawn : ℕ → ℤ) → IsSolution self.now.net q p c drawn
            → LiesWithin nanoampere q (c resistor) result }
        // They are at most 2 nanoamperes and 2 femtoamperes farther apart than a rising list tells of both ends.
        ensures width { (d : Resistor) (w : ℕ → ℤ) → IsRising self.now.net w
            → let r = slice_index_or self.now.net.resistors resistor d in
            (r.ohms *ℤ ((pos nanoampere *ℤ ((result.1 -ℤ result.0) -ℤ pos 2)) -ℤ pos 2)) <ℤ (w r.a +ℤ w r.b) }
    {
        let _nodes = self.net.nodes();
        let r = self.net.resistors()[resistor as usize];
        let (least, greatest) = current_between(&r, &self.high, &self.low);
        (div_floor(least, NANOAMPERE), div_ceil(greatest, NANOAMPERE))
    }
}
