// A situation, word by word.
ghost use Rattle.std.specs.Prelude.{◌≡◌, IfOk};
ghost use Rattle.situation.specs.Described.{told_by, blank, AnswersSet, AnswersNamed};

use crate::names::{Field, Name};
use crate::told::{Fields, Situation};
use crate::values::station_in;
use hex_digits::decode::decode;
use location_table::table::LocationTable;
use request::fault::LineFault;
use request::take::SetByName;
use std::alloc::{AllocError, Global};

impl Situation {
    // Every field left out, no station and no octets.
    pub fn new(heap: Global) -> Result<Situation, AllocError>
        ensures { IfOk result (λ s. told_by s ≡ blank) }
    {
        let table = LocationTable::new(heap)?;
        let packet = Vec::new(heap);
        Ok(Situation {
            fields: Fields::default(),
            table,
            packet,
        })
    }

    fn set_field(&mut self, field: Field, text: &str) -> Result<(), LineFault>
        ensures { AnswersSet (Name.Field field) text.now self.old self.new result }
    {
        self.fields = self
            .fields
            .with(field, text)
            .ok_or(LineFault::NotUnderstood)?;
        Ok(())
    }

    // Each station goes to the end of the table, also one whose address is there already. A full table takes none.
    fn add_station(&mut self, text: &str) -> Result<(), LineFault>
        ensures { AnswersSet Name.Station text.now self.old self.new result }
    {
        let station = station_in(text).ok_or(LineFault::NotUnderstood)?;
        self.table
            .enter(station)
            .map_err(|_| LineFault::NotUnderstood)
    }

    fn set_packet(&mut self, heap: Global, text: &str) -> Result<(), LineFault>
        ensures { AnswersSet Name.Packet text.now self.old self.new result }
    {
        self.packet = decode(heap, text.as_bytes())?;
        Ok(())
    }
}

// A name or a value that is refused leaves all as it was.
impl SetByName for Situation {
    ghost setting = { AnswersNamed };

    fn set(&mut self, heap: Global, name: &str, value: &str) -> Result<(), LineFault> {
        match name.parse()? {
            Name::Field(field) => self.set_field(field, value),
            Name::Station => self.add_station(value),
            Name::Packet => self.set_packet(heap, value),
        }
    }
}
