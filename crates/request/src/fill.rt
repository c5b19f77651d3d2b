// One field set to what a text says; none, if the text says nothing or too much for the field. Functions for the parts, and
// no methods: their types are of other crates.
ghost use Rattle.std.specs.Prelude.{◌≡◌};
ghost use Rattle.request.specs.Asked.{common_with, vector_with, motion_with, area_with, fields_with};

use crate::asked::Fields;
use crate::names::{AreaField, CommonField, Field, MotionField, VectorField};
use crate::numbers::{flag_in, number_in};
use fields::address::Address;
use fields::motion::Motion;
use fields::sequence_number::SequenceNumber;
use fields::traffic_class::TrafficClass;
use fields::upper_protocol::UpperProtocol;
use hex_digits::number::{u32_of, u64_of};
use packets::common::CommonHeader;
use times::lifetime::Lifetime;
use times::timestamp::Timestamp;
use vectors::area::Area;
use vectors::long::LongPositionVector;
use vectors::short::ShortPositionVector;

impl Fields {
    // The fields with one of them set.
    pub(crate) fn with(&self, field: Field, value: &str) -> Option<Fields>
        ensures { result ≡ fields_with field value.now self.now }
    {
        let mut filled = *self;
        match field {
            Field::Common(part) => filled.common = common_with(self.common, part, value)?,
            Field::Source(part) => filled.source.short = vector_with(
                self.source.short,
                part,
                value,
            )?,
            Field::Motion(part) => filled.source = motion_with(self.source, part, value)?,
            Field::Destination(part) => filled.destination = vector_with(
                self.destination,
                part,
                value,
            )?,
            Field::Area(part) => filled.area = area_with(self.area, part, value)?,
            Field::Number => filled.number = SequenceNumber {
                value: number_in(value)?,
            },
            Field::Media => filled.media = u32_of(value.as_bytes())?,
        }
        Some(filled)
    }
}

fn common_with(common: CommonHeader, field: CommonField, value: &str) -> Option<CommonHeader>
    ensures { result ≡ common_with field value.now common }
{
    let mut filled = common;
    match field {
        CommonField::Lifetime => filled.lifetime = Lifetime {
            octet: number_in(value)?,
        },
        CommonField::RemainingHopLimit => filled.remaining_hop_limit = number_in(value)?,
        CommonField::MaximumHopLimit => filled.maximum_hop_limit = number_in(value)?,
        CommonField::TrafficClass => filled.traffic_class = TrafficClass {
            octet: number_in(value)?,
        },
        CommonField::UpperProtocol => {
            filled.upper_protocol = number_in::<u8>(value)?.try_into().ok()?;
        }
        CommonField::Mobile => filled.mobile = flag_in(value)?,
    }
    Some(filled)
}

fn vector_with(
    vector: ShortPositionVector,
    field: VectorField,
    value: &str,
) -> Option<ShortPositionVector>
    ensures { result ≡ vector_with field value.now vector }
{
    let mut filled = vector;
    match field {
        VectorField::Address => filled.address = Address {
            value: u64_of(value.as_bytes())?,
        },
        VectorField::Timestamp => filled.timestamp = Timestamp {
            millis: number_in(value)?,
        },
        VectorField::Latitude => filled.position.latitude = number_in(value)?,
        VectorField::Longitude => filled.position.longitude = number_in(value)?,
    }
    Some(filled)
}

fn motion_with(
    vector: LongPositionVector,
    field: MotionField,
    value: &str,
) -> Option<LongPositionVector>
    ensures { result ≡ motion_with field value.now vector }
{
    let mut filled = vector;
    match field {
        MotionField::Accurate => filled.motion = Motion::new(
            flag_in(value)?,
            vector.motion.speed(),
        )?,
        MotionField::Speed => filled.motion = Motion::new(
            vector.motion.accurate(),
            number_in(value)?,
        )?,
        MotionField::Heading => filled.heading = number_in(value)?,
    }
    Some(filled)
}

fn area_with(area: Area, field: AreaField, value: &str) -> Option<Area>
    ensures { result ≡ area_with field value.now area }
{
    let mut filled = area;
    match field {
        AreaField::Latitude => filled.centre.latitude = number_in(value)?,
        AreaField::Longitude => filled.centre.longitude = number_in(value)?,
        AreaField::Radius => filled.radius = number_in(value)?,
        AreaField::DistanceB => filled.distance_b = number_in(value)?,
        AreaField::Angle => filled.angle = number_in(value)?,
    }
    Some(filled)
}
