// The neighbours of the table, in its order.
ghost use Rattle.std.specs.Prelude.{◌≡◌, ◌≤◌, length, slice_get};
ghost use Rattle.arrayvec.specs.ArrayVec.{array_vec_len};
ghost use Rattle.location_table.specs.Neighbours.{distances, link_addresses};
ghost use Rattle.location_table.specs.Stations.{stations_in};

use super::LocationTable;
use super::entering::STATIONS;
use arrayvec::ArrayVec;
use fields::position::Position;
use ground::Ground;
use link::address::LinkAddress;

impl LocationTable {
    // The neighbours' distances to the target, in table order.
    pub fn distances<G: Ground>(&self, target: Position, ground: &G) -> ArrayVec<u32, STATIONS>
        ensures items { result.items ≡ distances (λ p. G.span ground.now p target) (stations_in self.now) }
        ensures few { array_vec_len result ≤ 64 }
        ensures stations { length self.now ≤ 64 }
    {
        let mut near = ArrayVec::new();
        self.measure(target, ground, &mut near);
        near
    }

    // Puts the neighbours' distances to the target, in table order, into `near`, in place of what was there. The step asks
    // this way: a vector that is answered is moved whole, twice.
    pub fn measure<G: Ground>(
        &self,
        target: Position,
        ground: &G,
        near: &mut ArrayVec<u32, STATIONS>,
    )
        ensures items { near.new.items ≡ distances (λ p. G.span ground.now p target) (stations_in self.now) }
        ensures few { array_vec_len near.new ≤ 64 }
        ensures stations { length self.now ≤ 64 }
    {
        // A loop, and no collect: that one answers that there may be no room.
        near.clear();
        for entry in &self.entries {
            if entry.neighbour {
                near.push(ground.distance(entry.vector.position, target));
            }
        }
    }

    // The link address of the neighbour at an index, counted from 0.
    pub fn link_address(&self, index: usize) -> Option<LinkAddress>
        ensures value { result ≡ slice_get (link_addresses (stations_in self.now)) index }
        ensures few { length self.now ≤ 64 }
    {
        let mut neighbours = self.entries.iter().filter(|entry| entry.neighbour);
        neighbours
            .nth(index)
            .map(|entry| LinkAddress::from(entry.vector.address))
    }
}
