// The area of an anycast or a broadcast: 16 octets, the last two of them reserved.
ghost use Rattle.vectors.specs.Vectors.{area_at, area_octets, length-area_octets, CircleFits};

use fields::position::Position;
use octets::fault::OctetFault;
use octets::read::FromOctets;
use octets::write::ToOctets;

// A circle, its radius in metres. It has no use for distance b and angle, and keeps them.
#[derive(Clone, Copy, Debug, Default, PartialEq, Eq)]
pub struct Area {
    pub centre: Position,
    pub radius: u16,
    pub distance_b: u16,
    pub angle: u16,
}

impl FromOctets for Area {
    ghost reading = { area_at };

    // The area in the 16 octets from `at` on; the reserved ones are passed over.
    fn read(octets: &[u8], at: usize) -> Result<Area, OctetFault> {
        let centre = Position::read(octets, at)?;
        let radius = u16::read(octets, at + 8)?;
        let distance_b = u16::read(octets, at + 10)?;
        let angle = u16::read(octets, at + 12)?;
        Ok(Area {
            centre,
            radius,
            distance_b,
            angle,
        })
    }
}

impl ToOctets for Area {
    ghost WIDTH = { 16 };

    ghost written = { area_octets };

    ghost Fits = { CircleFits };

    ghost full = { length-area_octets };

    fn width() -> usize {
        16
    }

    // The reserved octets are written as 0.
    fn write(&self, octets: &mut [u8], at: usize) -> Result<(), OctetFault> {
        let behind = (self.distance_b, (self.angle, 0u16));
        (self.centre, (self.radius, behind)).write(octets, at)
    }
}
