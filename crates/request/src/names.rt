// The fields that a request can set. The payload is none of them: it is the one that has no fixed size.
#[derive(Clone, Copy)]
pub enum CommonField {
    Lifetime,
    RemainingHopLimit,
    MaximumHopLimit,
    TrafficClass,
    UpperProtocol,
    Mobile,
}

// The fields of a short position vector.
#[derive(Clone, Copy)]
pub enum VectorField {
    Address,
    Timestamp,
    Latitude,
    Longitude,
}

// What a long position vector has besides.
#[derive(Clone, Copy)]
pub enum MotionField {
    Accurate,
    Speed,
    Heading,
}

#[derive(Clone, Copy)]
pub enum AreaField {
    Latitude,
    Longitude,
    Radius,
    DistanceB,
    Angle,
}

#[derive(Clone, Copy)]
pub enum Field {
    Common(CommonField),
    Source(VectorField),
    Motion(MotionField),
    Destination(VectorField),
    Area(AreaField),
    Number,
    Media,
}
