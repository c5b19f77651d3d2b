// A request, from the words of a line.
ghost use Rattle.request.specs.Cuts.{words_of};
ghost use Rattle.request.specs.Requests.{AnswersKind, Requested};

use crate::asked::Request;
use crate::cut::Words;
use crate::fault::LineFault;
use crate::take::take_words;
use std::alloc::Global;
use std::str::from_utf8;

// The request on a line: its kind, and then its fields in any order. A field that is given twice has its last value.
pub fn request_in(heap: Global, text: &[u8]) -> Result<Request, LineFault>
    ensures { Requested (words_of text.now) result }
{
    let mut words = Words(text);
    let kind = words.next().ok_or(LineFault::NotUnderstood)?;
    let mut request = new_request(heap, kind)?;
    take_words(&mut request, heap, words)?;
    Ok(request)
}

// The request that a kind begins.
fn new_request(heap: Global, word: &[u8]) -> Result<Request, LineFault>
    ensures { AnswersKind word.now result }
{
    let kind = from_utf8(word)?.parse()?;
    Ok(Request::new(heap, kind))
}
