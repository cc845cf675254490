//! The example of the repository's README, on a map in a store of one buffer of 8,192 words.

use crate::texts::FIRST;
use number_tree::{NumberTree, TreeLayout};
use std::alloc::AllocError;
use store_api::{Store, StoreError};

/// Returns whether each call of the example has the expected result.
fn is_right<const OFFSET_BITS: u32, S: Store<OFFSET_BITS, Layout = TreeLayout>>(
    map: &mut NumberTree<OFFSET_BITS, S>,
) -> bool {
    let put = map.put(7, 49) == Ok(());
    let got = map.get(7) == Some(49);
    let walked = map.at_or_above(3) == Some((7, 49));
    let mut last = Ok(());
    for key in 8..5000 {
        last = map.put(key, key);
    }
    let full = StoreError::Full {
        width: 34,
        active: 1,
        held: 0,
        oldest: FIRST,
    };
    put & got & walked & (last == Err(full)) & map.get(4999).is_none()
}

/// Returns the result of the example.
pub fn answer<const OFFSET_BITS: u32, S: Store<OFFSET_BITS, Layout = TreeLayout> + Drop>(
    map: NumberTree<OFFSET_BITS, S>,
    line: &mut String,
) -> Result<(), AllocError> {
    let mut map = map;
    line.push_str(if is_right(&mut map) {
        " right"
    } else {
        " wrong"
    })
}
