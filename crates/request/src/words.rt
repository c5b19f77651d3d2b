// A request, word by word.
ghost use Rattle.std.specs.Prelude.{◌≡◌, []};
ghost use Rattle.request.specs.Asked.{no_fields};
ghost use Rattle.request.specs.Words.{AnswersSet, AnswersPayload, AnswersField};

use crate::asked::Request;
use crate::blank::no_fields;
use crate::fault::LineFault;
use crate::names::Field;
use crate::take::SetByName;
use hex_digits::decode::decode;
use packets::kind::Kind;
use std::alloc::Global;

impl Request {
    // A packet of this kind, with every field 0 and no payload.
    pub(crate) fn new(heap: Global, kind: Kind) -> Request
        ensures kind { result.kind ≡ kind }
        ensures fields { result.fields ≡ no_fields }
        ensures payload { result.payload.items ≡ [] }
    {
        Request {
            kind,
            fields: no_fields(),
            payload: Vec::new(heap),
        }
    }

    fn set_payload(&mut self, heap: Global, value: &str) -> Result<(), LineFault>
        ensures { AnswersPayload value.now self.old self.new result }
    {
        self.payload = decode(heap, value.as_bytes())?;
        Ok(())
    }

    fn set_field(&mut self, field: Field, value: &str) -> Result<(), LineFault>
        ensures { AnswersField field value.now self.old self.new result }
    {
        self.fields = self
            .fields
            .with(field, value)
            .ok_or(LineFault::NotUnderstood)?;
        Ok(())
    }
}

// A name or a value that is refused leaves the request as it was.
impl SetByName for Request {
    ghost setting = { AnswersSet };

    fn set(&mut self, heap: Global, name: &str, value: &str) -> Result<(), LineFault> {
        if name == "payload" {
            self.set_payload(heap, value)
        } else {
            self.set_field(name.parse()?, value)
        }
    }
}
