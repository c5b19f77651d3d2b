// The words of a line, each of which sets a name to a text.
ghost use Rattle.request.specs.Answered.{Setting, WordAnswered, OctetsAnswered, WordsAnswered};
ghost use Rattle.request.specs.Cuts.{words_of};

use crate::cut::Words;
use crate::fault::LineFault;
use std::alloc::Global;
use std::str::from_utf8;

// What the words of a line fill in.
pub trait SetByName {
    // What comes of setting a name to a text.
    ghost setting: { Setting Self };

    fn set(&mut self, heap: Global, name: &str, value: &str) -> Result<(), LineFault>
        ensures { setting name.now value.now self.old self.new result };
}

// Takes the words in turn, up to the first that is refused.
pub fn take_words<S: SetByName>(taker: &mut S, heap: Global, words: Words) -> Result<(), LineFault>
    ensures { WordsAnswered S.setting (words_of words.entry.0.now) taker.old taker.new result }
{
    for word in words {
        take_octets(taker, heap, word)?;
    }
    Ok(())
}

// Sets what a word names; octets that are no text name nothing.
pub fn take_octets<S: SetByName>(taker: &mut S, heap: Global, word: &[u8]) -> Result<(), LineFault>
    ensures { OctetsAnswered S.setting word.now taker.old taker.new result }
{
    take_word(taker, heap, from_utf8(word)?)
}

// Sets what the word `name=value` names.
pub fn take_word<S: SetByName>(taker: &mut S, heap: Global, word: &str) -> Result<(), LineFault>
    ensures { WordAnswered S.setting word.now taker.old taker.new result }
{
    let (name, value) = word.split_once('=').ok_or(LineFault::NotUnderstood)?;
    taker.set(heap, name, value)
}
