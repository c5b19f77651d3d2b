// The text as a link.
ghost use Rattle.std.specs.Prelude.{◌≡◌, ◌≤◌, false, ◌++◌, length, if◌then◌else◌};
ghost use Rattle.link.specs.Frames.{frame, sent, joined};
ghost use Rattle.text_link.specs.TextLinks.{frames_of, has_space};
ghost use Rattle.text_link.specs.Texts.{line_of, lines};

use crate::line::{LINE_OVERHEAD, put_line};
use crate::text::TextLink;
use link::Link;
use link::address::LinkAddress;
use link::space::NoSpace;

impl Link for TextLink {
    ghost frames = { frames_of };

    ghost space = { has_space };

    fn has_space(&self, count: usize) -> bool
        ensures value { result ≡ has_space self.now count }
        ensures within { length self.now.text ≤ self.now.limit }
        ensures lines { self.now.text ≡ lines (frames_of self.now) }
        ensures reserved { self.now.limit ≤ self.now.storage }
    {
        let free = self.limit - self.text.len();
        LINE_OVERHEAD <= free && count <= (free - LINE_OVERHEAD) / 2
    }

    // The line takes no memory that is not there.
    fn send(&mut self, to: LinkAddress, packet: &[u8]) -> Result<(), NoSpace>
        ensures value { result ≡ sent (has_space self.old (length packet.now)) }
        ensures frames { frames_of self.new ≡ joined (has_space self.old (length packet.now)) (frame to packet.now) (frames_of self.old) }
        ensures text { self.new.text ≡ (if has_space self.old (length packet.now) then self.old.text ++ line_of (frame to packet.now) else self.old.text) }
        ensures limit { self.new.limit ≡ self.old.limit }
        ensures within { length self.new.text ≤ self.new.limit }
        ensures lines { self.new.text ≡ lines (frames_of self.new) }
        ensures reserved { self.new.limit ≤ self.new.storage }
        ensures same { has_space self.old (length packet.now) ≡ false → self.new ≡ self.old }
    {
        if !self.has_space(packet.len()) {
            return Err(NoSpace);
        }
        put_line(&mut self.text, to, packet);
        Ok(())
    }
}
