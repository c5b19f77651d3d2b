// What a word can set.
#[derive(Clone, Copy)]
pub enum Field {
    Scale,
    Ours,
    Target,
    Sender,
    Radius,
    Held,
    Room,
    Times,
}

#[derive(Clone, Copy)]
pub enum Name {
    Field(Field),
    Station,
    Packet,
}
