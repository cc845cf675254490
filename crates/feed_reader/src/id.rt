//! The document that an id names.

ghost use Rattle.std.specs.Prelude.{◌≡◌, option_map};
ghost use Rattle.feed_reader.specs.Id.{cut_at_colon, cut_some_at_colon, id_read};

use crate::numeral::document_in;
use attr_types::Doc;

/// Returns what precedes the first colon, and what follows it.
fn cut_at_colon(text: &str) -> Option<(&str, &str)>
    ensures { option_map (λ p. (p.0.now, p.1.now)) result ≡ cut_at_colon text.now }
{
    text.split_once(':')
}

/// The same, if at least one byte precedes the colon.
fn cut_some_at_colon(text: &str) -> Option<(&str, &str)>
    ensures { option_map (λ p. (p.0.now, p.1.now)) result ≡ cut_some_at_colon text.now }
{
    let parts = cut_at_colon(text)?;
    if parts.0.is_empty() {
        None
    } else {
        Some(parts)
    }
}

/// Returns the document that an id names.
#[tactic(auto, unfolding(crate::specs::Id::id_read))]
pub fn document_of_id(text: &str) -> Option<Doc>
    ensures { result ≡ id_read text.now }
{
    let (scheme, rest) = cut_at_colon(text)?;
    if scheme != "id" {
        return None;
    }
    let (_namespace, rest) = cut_some_at_colon(rest)?;
    let (_document_type, rest) = cut_some_at_colon(rest)?;
    let (_part, user) = cut_at_colon(rest)?;
    document_in(user)
}
