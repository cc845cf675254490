//! Rows worked by hand, as laws. Each function does nothing; its contract is the law.
ghost use Rattle.result_model.specs.Examples.{BestOfThree, Cheapest, Dearest, SecondAndThird};
ghost use Rattle.result_model.specs.Examples.{GroupedByCount, GroupedByTag, PricesInBulk, TagsFromB, TotalOfNone, TotalOfPrices, TwoFromThree};

/// Sorted documents and best scores: ties ascend by document, and documents without a value are last.
pub fn orders_law()
    ensures up { Cheapest }
    ensures down { Dearest }
    ensures window { SecondAndThird }
    ensures best { BestOfThree }
{}

/// Groups and terms: a document counts once for each distinct value that it has.
pub fn groups_law()
    ensures by_value { GroupedByTag }
    ensures by_count { GroupedByCount }
    ensures terms { TagsFromB }
{}

/// Totals and values of given documents, and documents from a number on.
pub fn totals_law()
    ensures prices { TotalOfPrices }
    ensures none { TotalOfNone }
    ensures values { PricesInBulk }
    ensures documents { TwoFromThree }
{}
