//! The lines of a text, each of which ends with one line feed.

ghost use Rattle.std.specs.Prelude.{◌≡◌, ◌++◌, ◌∷◌, IfSome, IfNone};
ghost use Rattle.text_fields.specs.Lines.{HasNoFeed};

/// The first line of a text, without its line feed, and what follows it; nothing where there is no line feed.
pub fn split_line(text: &[u8]) -> Option<(&[u8], &[u8])>
    ensures split { IfSome result (λ r. text.now ≡ r.0.now ++ 10 ∷ r.1.now) }
    ensures line { IfSome result (λ r. HasNoFeed r.0.now) }
    ensures none { IfNone result (HasNoFeed text.now) }
{
    for (end, byte) in text.iter().enumerate() {
        if *byte == b'\n' {
            return Some((&text[..end], &text[end + 1..]));
        }
    }
    None
}
