// What a name stands for. Names are in lower case.
ghost use Rattle.situation.specs.Names.{Named};

use crate::names::{Field, Name};
use request::fault::LineFault;
use std::str::FromStr;

impl FromStr for Name {
    type Err = LineFault;

    ghost from_str_gives = { Named };

    fn from_str(text: &str) -> Result<Name, LineFault> {
        Ok(match text {
            "scale" => Name::Field(Field::Scale),
            "ours" => Name::Field(Field::Ours),
            "target" => Name::Field(Field::Target),
            "sender" => Name::Field(Field::Sender),
            "radius" => Name::Field(Field::Radius),
            "held" => Name::Field(Field::Held),
            "room" => Name::Field(Field::Room),
            "times" => Name::Field(Field::Times),
            "station" => Name::Station,
            "packet" => Name::Packet,
            _ => return Err(LineFault::NotUnderstood),
        })
    }
}
