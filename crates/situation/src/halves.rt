// A text cut in two.
ghost use Rattle.std.specs.Prelude.{◌≡◌, ◌<◌};
ghost use Rattle.std.specs.Option.{option_map};
ghost use Rattle.situation.specs.Halves.{cut_at, both_of};

// What stands before the first of some character, and what stands behind it. Of a character that is not in ASCII nothing
// is said.
pub fn halves(text: &str, mark: char) -> Option<(&str, &str)>
    ensures { mark < 128 → option_map both_of result ≡ cut_at mark text.now }
{
    text.split_once(mark)
}
