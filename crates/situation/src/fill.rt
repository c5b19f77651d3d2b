// The fields, and one of them set to what a text says.
ghost use Rattle.std.specs.Prelude.{◌≡◌};
ghost use Rattle.situation.specs.Filled.{no_fields, fields_with};

use crate::names::Field;
use crate::told::Fields;
use crate::values::position_in;
use forwarding::course::Course;
use ground::scale::EQUATOR;
use request::numbers::{flag_in, number_in};

// The size of the text link's buffer, where none is told.
pub const ROOM: u16 = 4_096;

// What a line says that leaves every field out. No derive: not every value is 0.
impl Default for Fields {
    ghost is_default = { λ fields. fields ≡ no_fields };

    fn default() -> Fields {
        Fields {
            scale: EQUATOR.value(),
            course: Course::default(),
            radius: 0,
            held: false,
            room: ROOM,
            times: 1,
        }
    }
}

impl Fields {
    // The fields with one of them set; none, if the text is no value of it.
    pub fn with(&self, field: Field, text: &str) -> Option<Fields>
        ensures { result ≡ fields_with field text.now self.now }
    {
        let mut filled = *self;
        match field {
            Field::Scale => filled.scale = number_in(text)?,
            Field::Ours => filled.course.ours = position_in(text)?,
            Field::Target => filled.course.target = position_in(text)?,
            Field::Sender => filled.course.sender = Some(position_in(text)?),
            Field::Radius => filled.radius = number_in(text)?,
            Field::Held => filled.held = flag_in(text)?,
            Field::Room => filled.room = number_in(text)?,
            Field::Times => filled.times = number_in(text)?,
        }
        Some(filled)
    }
}
