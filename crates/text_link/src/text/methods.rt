// Making a link, and reading its text.
ghost use Rattle.std.specs.Prelude.{◌≡◌, ◌≤◌, [], length, IfOk};
ghost use Rattle.text_link.specs.TextLinks.{frames_of};
ghost use Rattle.text_link.specs.Texts.{lines};

use crate::text::TextLink;
use std::alloc::{AllocError, Global};

impl TextLink {
    // No text, and a buffer for `limit` octets of it.
    pub fn new(heap: Global, limit: usize) -> Result<TextLink, AllocError>
        ensures value { IfOk result (λ t. (t.text ≡ []) × (t.limit ≡ limit)) }
        ensures reserved { IfOk result (λ t. t.limit ≤ t.storage) }
    {
        let text = Vec::with_capacity(heap, limit)?;
        Ok(TextLink { text, limit })
    }

    // The lines of the frames, one after another, and nothing else.
    pub fn text(&self) -> &[u8]
        ensures value { result.now ≡ self.now.text }
        ensures within { length result.now ≤ self.now.limit }
        ensures lines { result.now ≡ lines (frames_of self.now) }
        ensures reserved { self.now.limit ≤ self.now.storage }
    {
        self.text.as_slice()
    }
}
