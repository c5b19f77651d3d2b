// A situation, from the words of a line.
ghost use Rattle.request.specs.Cuts.{words_of};
ghost use Rattle.situation.specs.Described.{Describes};

use crate::told::Situation;
use request::cut::Words;
use request::fault::LineFault;
use request::take::take_words;
use std::alloc::Global;

// The situation on a line: its fields in any order. A field that is given twice has its last value, and each station
// adds one to the table.
pub fn situation_in(heap: Global, text: &[u8]) -> Result<Situation, LineFault>
    ensures { Describes (words_of text.now) result }
{
    let mut situation = Situation::new(heap)?;
    take_words(&mut situation, heap, Words(text))?;
    Ok(situation)
}
