//! Rows of the checker of trees, each with one word wrong.

use crate::made::{Row, Words, records_of, root};
use attr_types::ValueType;
use check_images::{CheckFault, Keys, check_tree, is_node_form};
use std::alloc::{AllocError, Global};

/// Returns whether words are those of a node after another word replaces one, if the index is valid.
fn is_node_with(words: [u64; 34], place: usize, word: u64) -> Option<bool> {
    let mut changed = words;
    *changed.get_mut(place)? = word;
    Some(is_node_form(&changed, 1, 2))
}

/// A word that is changed in a root, its new value, and whether the words are those of a node.
const WORDS: [(usize, u64, bool); 8] = [
    (0, 514, false),
    (0, 257, false),
    (0, 273, false),
    (0, 272, true),
    (4, 1, false),
    (33, 1, false),
    (1, 4294967295, true),
    (1, 4294967296, false),
];

/// Returns whether words of nodes are told apart.
fn are_words_told_apart() -> bool {
    let good = root(1026, 2050);
    let mut is_right = is_node_form(&good, 1, 2);
    is_right &= is_node_form(&[0; 34], 0, 0);
    is_right &= !is_node_form(&[0; 33], 0, 0);
    is_right &= !is_node_form(&good, 0, 2);
    is_right &= !is_node_form(&good, 1, 3);
    for (place, word, formed) in WORDS {
        is_right &= is_node_with(good, place, word) == Some(formed);
    }
    is_right
}

#[test]
fn words_of_nodes_are_told_apart(rt: HostRuntime) {
    assert!(rt; are_words_told_apart());
}

/// Returns whether pairs are those of the keys 1 to `count`, each with the value 1.
fn are_ones(pairs: &[(u64, u64)], count: u64) -> bool {
    let mut next: u64 = 1;
    let mut is_right = pairs.len() as u64 == count;
    for pair in pairs {
        is_right &= *pair == (next, 1);
        next = next.saturating_add(1);
    }
    is_right
}

/// What the records from a root on must be.
#[derive(Clone, Copy)]
enum Tree {
    /// A tree of the keys 1 to this one, each with the value 1; none if the root is 0.
    Ones(u64),
    /// A tree of any pairs.
    Some,
    /// No tree.
    Broken,
}

/// Records, those that replace them, how keys are compared, the root, and what it must be.
type Roots<'a> = (&'a [Row<'a>], &'a [Row<'a>], Keys, u64, Tree);

fn is_tree(pairs: &[(u64, u64)], tree: Tree) -> bool {
    match tree {
        Tree::Ones(count) => are_ones(pairs, count),
        Tree::Some => true,
        Tree::Broken => false,
    }
}

fn is_refused(fault: CheckFault, tree: Tree) -> bool {
    match tree {
        Tree::Ones(_) => false,
        Tree::Some => false,
        Tree::Broken => fault == CheckFault::Broken,
    }
}

/// Returns whether records from a root on are what they must be.
fn is_as(alloc: Global, row: &Roots) -> Result<bool, AllocError> {
    let records = records_of(alloc, row.0, row.1)?;
    Ok(match check_tree(alloc, row.2, &records, row.3) {
        Ok(pairs) => is_tree(pairs.as_slice(), row.4),
        Err(fault) => is_refused(fault, row.4),
    })
}

/// Returns the number of the first row whose records are something else, or how many rows there are.
fn right_trees(alloc: Global, rows: &[Roots]) -> Result<usize, AllocError> {
    for (i, row) in rows.iter().enumerate() {
        if !is_as(alloc, row)? {
            return Ok(i);
        }
    }
    Ok(rows.len())
}

/// A tree of the keys 1 to 17, each with the value 1.
const SEVENTEEN: [Row<'static>; 3] = [
    (3074, Words::Root(1026, 2050)),
    (1026, Words::Run(1, 9, 1)),
    (2050, Words::Run(10, 8, 1)),
];

/// A leaf of two keys, which refer to values.
const TWO_VALUES: [Row<'static>; 1] = [(3074, Words::Node(2, 2, &[1024, 2048], &[1, 1]))];

const LONG: Keys = Keys::Values(ValueType::Long);

const TEXT: Keys = Keys::Values(ValueType::Text);

const TREES: [Roots<'static>; 23] = [
    (&SEVENTEEN, &[], Keys::Numbers, 3074, Tree::Ones(17)),
    (&SEVENTEEN, &[], Keys::Numbers, 1026, Tree::Ones(9)),
    (
        &SEVENTEEN,
        &[(1026, Words::Run(1, 16, 1))],
        Keys::Numbers,
        1026,
        Tree::Ones(16),
    ),
    (
        &[],
        &[(5, Words::Are(&[]))],
        Keys::Numbers,
        0,
        Tree::Ones(0),
    ),
    (
        &SEVENTEEN,
        &[(4, Words::Are(&[1]))],
        Keys::Numbers,
        5,
        Tree::Broken,
    ),
    (
        &SEVENTEEN,
        &[(5, Words::Are(&[]))],
        Keys::Numbers,
        4294970370,
        Tree::Broken,
    ),
    (
        &SEVENTEEN,
        &[(3074, Words::Root(1026, 2051))],
        Keys::Numbers,
        3074,
        Tree::Broken,
    ),
    (
        &SEVENTEEN,
        &[(3074, Words::Root(1026, 4294969346))],
        Keys::Numbers,
        3074,
        Tree::Broken,
    ),
    (
        &SEVENTEEN,
        &[(3074, Words::Node(258, 17, &[8, 17], &[1026, 2050]))],
        Keys::Numbers,
        3074,
        Tree::Broken,
    ),
    (
        &SEVENTEEN,
        &[(3074, Words::Node(258, 18, &[9, 17], &[1026, 2050]))],
        Keys::Numbers,
        3074,
        Tree::Broken,
    ),
    (
        &SEVENTEEN,
        &[(3074, Words::Node(2306, 17, &[9, 17], &[1026, 2050]))],
        Keys::Numbers,
        3074,
        Tree::Broken,
    ),
    (
        &SEVENTEEN,
        &[(3074, Words::Root(1026, 3074))],
        Keys::Numbers,
        3074,
        Tree::Broken,
    ),
    (
        &SEVENTEEN,
        &[(2050, Words::Run(11, 7, 1))],
        Keys::Numbers,
        3074,
        Tree::Broken,
    ),
    // the first key of the second leaf is the last one of the first
    (
        &SEVENTEEN,
        &[(
            2050,
            Words::Node(
                8,
                8,
                &[9, 11, 12, 13, 14, 15, 16, 17],
                &[1, 1, 1, 1, 1, 1, 1, 1],
            ),
        )],
        Keys::Numbers,
        3074,
        Tree::Broken,
    ),
    (
        &SEVENTEEN,
        &[(1026, Words::Root(1026, 2050))],
        Keys::Numbers,
        3074,
        Tree::Broken,
    ),
    (
        &SEVENTEEN,
        &[(2050, Words::Are(&[8, 8]))],
        Keys::Numbers,
        3074,
        Tree::Broken,
    ),
    // the words of the first value's record and of the second's: keys that are values are compared as they read
    (
        &TWO_VALUES,
        &[
            (1024, Words::Are(&[8, u64::MAX])),
            (2048, Words::Are(&[8, 5])),
        ],
        LONG,
        3074,
        Tree::Some,
    ),
    (
        &TWO_VALUES,
        &[
            (1024, Words::Are(&[8, 5])),
            (2048, Words::Are(&[8, u64::MAX])),
        ],
        LONG,
        3074,
        Tree::Broken,
    ),
    (
        &TWO_VALUES,
        &[(1024, Words::Are(&[8, 5])), (2048, Words::Are(&[8, 5]))],
        LONG,
        3074,
        Tree::Broken,
    ),
    (
        &TWO_VALUES,
        &[
            (1024, Words::Are(&[2, 0x7465000000000000])),
            (2048, Words::Are(&[2, 0xC3A9000000000000])),
        ],
        TEXT,
        3074,
        Tree::Some,
    ),
    (
        &TWO_VALUES,
        &[
            (1024, Words::Are(&[2, 0x7465000000000000])),
            (2048, Words::Are(&[2, 0x7400000000000000])),
        ],
        TEXT,
        3074,
        Tree::Broken,
    ),
    (
        &TWO_VALUES,
        &[
            (1024, Words::Are(&[2, 0x7465000000000000])),
            (2048, Words::Are(&[3, 0x7465000000000000])),
        ],
        TEXT,
        3074,
        Tree::Some,
    ),
    (
        &TWO_VALUES,
        &[(1024, Words::Are(&[2, 0])), (2048, Words::Are(&[1, 0]))],
        Keys::Numbers,
        3074,
        Tree::Some,
    ),
];

#[test]
fn trees_are_told_apart(rt: HostRuntime) -> Result<(), AllocError> {
    let right = right_trees(rt.alloc(), &TREES)?;
    assert!(rt; right == TREES.len(), "row {right}");
    Ok(())
}
