// The forwarding step of a situation, over each ground, policy and link.
ghost use Rattle.gn_forward.specs.Steps.{Round, Rounds};

use crate::links::Links;
use crate::on_ground::OnGround;
use crate::verdicts::RoundVerdicts;
use ground::flat::Flat;
use ground::scale::EastScale;
use ground::street::Street;
use situation::told::Situation;

// Does the step as often as the situation says, and answers the verdicts of the last time.
pub fn rounds(situation: &Situation, scale: EastScale, links: &mut Links) -> Option<RoundVerdicts>
    ensures { Rounds situation.now.fields.times situation.now scale.value links.old links.new result }
{
    let mut last = None;
    // Not a count of places: so many times over.
    for time in 0..situation.fields.times {
        last = Some(round(situation, scale, links));
    }
    last
}

// The flat ground first, and then the street ground.
fn round(situation: &Situation, scale: EastScale, links: &mut Links) -> RoundVerdicts
    ensures { Round situation.now scale.value links.old links.new result }
{
    let ground = &Flat { scale };
    let flat = OnGround { situation, ground }.steps(links);
    let ground = &Street { scale };
    let street = OnGround { situation, ground }.steps(links);
    RoundVerdicts { flat, street }
}
