//! Tests over public calls, from the lowest crates up: references, the memory, holds, buffers, entries and the store, for both
//! widths of references; classes; values in a store; trees and images made by hand.
#![tactic(auto)]

#[cfg(test)]
mod cases;
#[cfg(test)]
mod made;
#[cfg(test)]
mod of_arrays;
#[cfg(test)]
mod of_buffers;
#[cfg(test)]
mod of_check_images;
#[cfg(test)]
mod of_check_trees;
#[cfg(test)]
mod of_commits;
#[cfg(test)]
mod of_hold_lists;
#[cfg(test)]
mod of_holds;
#[cfg(test)]
mod of_memory;
#[cfg(test)]
mod of_references;
#[cfg(test)]
mod of_shelves;
#[cfg(test)]
mod of_store;
#[cfg(test)]
mod of_values;
#[cfg(test)]
mod stores;
