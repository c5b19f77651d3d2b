// The forwarding step: the distances, the question, and the frame.
ghost use Rattle.std.specs.Prelude.{◌≡◌, ◌++◌, length};
ghost use Rattle.policy.specs.Choices.{Sound};
ghost use Rattle.location_table.specs.Neighbours.{distances, link_addresses};
ghost use Rattle.location_table.specs.Stations.{stations_in};
ghost use Rattle.forwarding.specs.Questions.{advice, sender_distance};
ghost use Rattle.forwarding.specs.Verdicts.{judged, frames_of, Nearer, Untouched};

use crate::carried::Carried;
use crate::course::Course;
use crate::verdict::Verdict;
use arrayvec::ArrayVec;
use ground::Ground;
use link::Link;
use link::address::BROADCAST;
use location_table::table::LocationTable;
use policy::Policy;
use policy::choice::Choice;

// What carries packets on: the stations that are known, the ground between them, and the policy.
#[derive(Clone, Copy)]
pub struct Forwarder<'a, G, P> {
    pub table: &'a LocationTable,
    pub ground: &'a G,
    pub policy: &'a P,
}

impl<G: Ground, P: Policy> Forwarder<'_, G, P> {
    // What the policy says to the distances to the target: ours, the sender's if its position is known, and those of all
    // neighbours, in table order.
    pub fn consult(&self, course: Course) -> Choice
        ensures value { result ≡ advice (P.choice self.now.policy.now) (G.span self.now.ground.now) course (stations_in self.now.table.now) }
        ensures sound { Sound (G.span self.now.ground.now course.ours course.target) (sender_distance (G.span self.now.ground.now) course) (distances (λ p. G.span self.now.ground.now p course.target) (stations_in self.now.table.now)) result }
    {
        let ours = self.ground.distance(course.ours, course.target);
        let sender = course.sender_distance(self.ground);
        let mut near = ArrayVec::new();
        self.table.measure(course.target, self.ground, &mut near);
        self.policy.choose(ours, sender, near.as_slice())
    }

    // Carries a packet on, or says why not.
    pub fn forward<L: Link>(&self, carried: &Carried<'_>, link: &mut L) -> Verdict
        ensures verdict { result ≡ judged (advice (P.choice self.now.policy.now) (G.span self.now.ground.now) carried.now.course (stations_in self.now.table.now)) carried.now.held (link_addresses (stations_in self.now.table.now)) (L.space link.old (length carried.now.packet.now)) }
        ensures frames { L.frames link.new ≡ L.frames link.old ++ frames_of result carried.now.packet.now }
        ensures untouched { Untouched result link.old link.new }
        ensures nearer { Nearer (λ p. G.span self.now.ground.now p carried.now.course.target) carried.now.course.ours (stations_in self.now.table.now) result }
    {
        match self.consult(carried.course) {
            Choice::Neighbour(index) => {
                let to = self.table.link_address(index).unwrap();
                carried.put_out(link, to, Verdict::Unicast(to))
            }
            Choice::Wait(millis) => Verdict::Wait(millis),
            Choice::NoProgress => Verdict::NoProgress,
            Choice::Nobody if carried.held => Verdict::Hold,
            Choice::Nobody => carried.put_out(link, BROADCAST, Verdict::Broadcast),
        }
    }
}
