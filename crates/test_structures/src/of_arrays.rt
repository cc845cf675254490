//! Classes of records.
use array_store::class_of;

/// How many words a record has to hold, and its class.
const CLASSES: [(u32, u32); 9] = [
    (1, 2),
    (2, 2),
    (3, 4),
    (9, 16),
    (34, 64),
    (129, 256),
    (512, 512),
    (513, 1024),
    (1024, 1024),
];

fn are_classes() -> bool {
    let mut is_right = true;
    for (words, class) in CLASSES {
        is_right &= class_of(words.min(1024)) == class;
    }
    is_right
}

#[test]
fn a_class_is_the_least_that_holds_so_many_words(rt: HostRuntime) {
    assert!(rt; are_classes());
}
