// A situation on one ground: the distances, and the steps.
use crate::distances::Distances;
use crate::links::Links;
use crate::verdicts::{GroundVerdicts, LinkVerdicts};
use forwarding::carried::Carried;
use forwarding::step::Forwarder;
use ground::Ground;
use ground::circle::is_inside;
use policy::Policy;
use policy::contention::Contention;
use policy::greedy::Greedy;
use situation::told::Situation;

#[derive(Clone, Copy)]
pub struct OnGround<'a, G> {
    pub situation: &'a Situation,
    pub ground: &'a G,
}

impl<G: Ground> OnGround<'_, G> {
    ghost use Rattle.gn_forward.specs.Measures.{Measured};
    ghost use Rattle.gn_forward.specs.Steps.{SteppedOnBoth, Overall, advised};

    pub fn distances(&self) -> Distances
        ensures { Measured (G.span self.now.ground.now) self.now.situation.now result }
    {
        let course = self.situation.fields.course;
        let radius = self.situation.fields.radius;
        Distances {
            ours: self.ground.distance(course.ours, course.target),
            sender: course.sender_distance(self.ground),
            near: self.situation.table.distances(course.target, self.ground),
            inside: is_inside(self.ground, course.ours, course.target, radius),
        }
    }

    // Greedy first, and then contention.
    pub fn steps(&self, links: &mut Links) -> GroundVerdicts
        ensures { Overall (G.span self.now.ground.now) self.now.situation.now links.old links.new result }
    {
        let greedy = self.step(&Greedy, links);
        let contention = self.step(&Contention, links);
        GroundVerdicts { greedy, contention }
    }

    // The radio queue first, and then the text link.
    fn step<P: Policy>(&self, policy: &P, links: &mut Links) -> LinkVerdicts
        ensures { SteppedOnBoth (advised (P.choice policy.now) (G.span self.now.ground.now) self.now.situation.now) self.now.situation.now links.old links.new result }
    {
        let forwarder = Forwarder {
            table: &self.situation.table,
            ground: self.ground,
            policy,
        };
        let carried = Carried {
            course: self.situation.fields.course,
            held: self.situation.fields.held,
            packet: self.situation.packet.as_slice(),
        };
        let queue = forwarder.forward(&carried, &mut links.queue);
        let text = forwarder.forward(&carried, &mut links.text);
        LinkVerdicts { queue, text }
    }
}
