// A line for each frame, in a buffer that is reserved when the link is made.
use std::marker::Model;

pub mod methods;
pub mod sending;

// In clauses a link is its text, the limit of its length, and for how many octets there is storage. The text is always the
// lines of the frames that it says.
#[derive(Drop)]
pub struct TextLink {
    text: Vec<u8>,
    limit: usize,
}

impl Model for TextLink {
    ghost use Rattle.std.specs.Prelude.{◌≡◌, ◌≤◌, vec_len, vec_capacity};
    ghost use Rattle.text_link.specs.Texts.{LimitedText, lines, decoded};

    ghost Value = { LimitedText };

    ghost view = { λ t. record { text = t.text.items; limit = t.limit; storage = vec_capacity t.text } };

    ghost invariant = { λ t. (vec_len t.text ≤ t.limit) × (t.limit ≤ vec_capacity t.text) × (lines (decoded t.text.items) ≡ t.text.items) };
}
