// A request that has asked for nothing yet: every field is 0.
ghost use Rattle.std.specs.Prelude.{◌≡◌};
ghost use Rattle.request.specs.Asked.{no_fields};

use crate::asked::Fields;

pub(crate) fn no_fields() -> Fields
    ensures { result ≡ no_fields }
{
    Fields::default()
}
