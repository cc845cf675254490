//! The form of a long list, by the number of its documents.
ghost use Rattle.std.specs.Prelude.{◌≡◌, ℕ, nat_le, true};
ghost use Rattle.image_format.specs.Postings.{is_dense};

use crate::{LEAST_DENSE, MOST_SPREAD};

/// Returns the least number of documents with which a list is to be a bit vector, of `documents` documents in all, once a change
/// is made and if bit vectors are wanted.
pub fn least_dense(documents: u32) -> u32
    ensures { (count : ℕ) → nat_le result count ≡ is_dense true count documents }
{
    documents.div_ceil(MOST_SPREAD).max(LEAST_DENSE)
}
