// What a name stands for. Names are in lower case.
ghost use Rattle.request.specs.Names.{Named, field_name};

use crate::fault::LineFault;
use crate::names::{AreaField, CommonField, Field, MotionField, VectorField};
use std::str::FromStr;

// The field of a packet that has this name. The source's fields go by their plain names.
impl FromStr for Field {
    type Err = LineFault;

    ghost from_str_gives = { Named field_name };

    fn from_str(name: &str) -> Result<Field, LineFault> {
        Ok(match name {
            "lifetime" => Field::Common(CommonField::Lifetime),
            "rhl" => Field::Common(CommonField::RemainingHopLimit),
            "mhl" => Field::Common(CommonField::MaximumHopLimit),
            "class" => Field::Common(CommonField::TrafficClass),
            "upper" => Field::Common(CommonField::UpperProtocol),
            "mobile" => Field::Common(CommonField::Mobile),
            "number" => Field::Number,
            "address" => Field::Source(VectorField::Address),
            "timestamp" => Field::Source(VectorField::Timestamp),
            "latitude" => Field::Source(VectorField::Latitude),
            "longitude" => Field::Source(VectorField::Longitude),
            "accurate" => Field::Motion(MotionField::Accurate),
            "speed" => Field::Motion(MotionField::Speed),
            "heading" => Field::Motion(MotionField::Heading),
            "to-address" => Field::Destination(VectorField::Address),
            "to-timestamp" => Field::Destination(VectorField::Timestamp),
            "to-latitude" => Field::Destination(VectorField::Latitude),
            "to-longitude" => Field::Destination(VectorField::Longitude),
            "centre-latitude" => Field::Area(AreaField::Latitude),
            "centre-longitude" => Field::Area(AreaField::Longitude),
            "radius" => Field::Area(AreaField::Radius),
            "b" => Field::Area(AreaField::DistanceB),
            "angle" => Field::Area(AreaField::Angle),
            "media" => Field::Media,
            _ => return Err(LineFault::NotUnderstood),
        })
    }
}
