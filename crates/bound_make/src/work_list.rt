ghost use Rattle.std.specs.Prelude.{◌≡◌, ◌<◌, ◌≤◌, length, OnSome};
ghost use Rattle.grid_net.specs.Limits.{IsBuilt};

use grid_net::Net;

/// The nodes that are looked at between two sweeps, in the order in which they came. A node stands in the list once
/// at most.
///
/// The list only saves work, and nothing rests on what it holds: a node that it lacks is met by the next sweep.
#[derive(Drop)]
pub(crate) struct WorkList<'a> {
    /// The numbers of the nodes, from the place of the first on. After the last cell comes the first one.
    ring: &'a mut [i128],
    /// For each node, 1 where it stands in the ring, and else 0.
    marks: &'a mut [i128],
    first: usize,
    count: usize,
    ghost within: { count ≤ length ring.now },
}

/// Marks a node, and tells whether it had no mark.
fn mark(marks: &mut [i128], node: u32) -> bool {
    match marks.get_mut(node as usize) {
        Some(mark) if *mark == 0 => {
            *mark = 1;
            true
        }
        _ => false,
    }
}

/// Takes the mark from a node.
fn unmark(marks: &mut [i128], node: u32) {
    if let Some(mark) = marks.get_mut(node as usize) {
        *mark = 0;
    }
}

/// Writes a node in the cell at a place.
fn write(ring: &mut [i128], place: usize, node: u32) {
    if let Some(cell) = ring.get_mut(place) {
        *cell = i128::from(node);
    }
}

/// The node in the cell at a place, or a number that is no node.
fn node_in(ring: &[i128], place: usize) -> u32 {
    let cell = ring.get(place).copied().unwrap_or(0);
    u32::try_from(cell).unwrap_or(u32::MAX)
}

impl<'a> WorkList<'a> {
    /// A list without nodes, in cells that may hold anything: two for each node, one in the ring and one for its mark.
    /// Where there are no cells, the list takes no node.
    pub(crate) fn new(cells: &'a mut [i128]) -> WorkList<'a> {
        let nodes = cells.len() / 2;
        let (ring, marks) = cells.split_at_mut(nodes);
        marks.fill(0);
        WorkList {
            ring,
            marks,
            first: 0,
            count: 0,
        }
    }

    /// The place in the ring that comes so many after the first.
    fn place_after(&self, places: usize) -> usize {
        let place = self.first.saturating_add(places);
        place.checked_sub(self.ring.len()).unwrap_or(place)
    }

    /// Puts a node at the end, where it does not stand in the list and there is room.
    fn push(&mut self, node: u32)
        ensures { length self.new.ring.now ≡ length self.old.ring.now }
    {
        if self.count >= self.ring.len() || !mark(self.marks, node) {
            return;
        }
        let count = self.count;
        let place = self.place_after(count);
        write(self.ring, place, node);
        self.count += 1;
    }

    /// Puts a node at the end, and the nodes that share a resistor with it.
    pub(crate) fn push_around(&mut self, net: &Net, node: u32)
        requires built { IsBuilt net.now }
        requires node_in { node < net.now.nodes }
        ensures { length self.new.ring.now ≡ length self.old.ring.now }
    {
        self.push(node);
        let resistors = net.resistors();
        let around = net.around(node);
        for place in around {
            self.push(resistors[*place as usize].end_across(node));
        }
    }

    /// Takes the node that came first. `None` where the list has none.
    pub(crate) fn pop(&mut self) -> Option<u32>
        ensures room { length self.new.ring.now ≡ length self.old.ring.now }
        ensures fewer { OnSome result (self.new.count < self.old.count) }
    {
        if self.count == 0 {
            return None;
        }
        let node = node_in(self.ring, self.first);
        unmark(self.marks, node);
        self.first = self.place_after(1);
        self.count -= 1;
        Some(node)
    }
}
