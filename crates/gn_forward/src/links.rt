// The two links of a situation.
ghost use Rattle.std.specs.Prelude.{◌≡◌, [], IfOk};

use radio_queue::queue::RadioQueue;
use std::alloc::{AllocError, Global};
use text_link::text::TextLink;

#[derive(Drop)]
pub struct Links {
    pub queue: RadioQueue,
    pub text: TextLink,
}

impl Links {
    // Both are empty; the text link has a buffer of this size.
    pub fn new(heap: Global, room: u16) -> Result<Links, AllocError>
        ensures { IfOk result (λ l. (l.queue.frames ≡ []) × (l.text.text ≡ []) × (l.text.limit ≡ room)) }
    {
        let queue = RadioQueue::new(heap)?;
        let text = TextLink::new(heap, usize::from(room))?;
        Ok(Links { queue, text })
    }
}
