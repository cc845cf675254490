//! The groups that a reader keeps, told one by one.
ghost use Rattle.std.specs.Prelude.{◌≡◌, ◌≢◌, pos, Some, None, option_map, slice_get};
ghost use Rattle.attr_c.specs.Grouping.{group_text, group_told, no_group};
ghost use Rattle.attr_c.specs.declared.codes.TheConstants.{BOUNDS, OK};

use crate::codes::{BOUNDS, OK};
use crate::told::GroupTold;
use attr_types::Value;
use result_model::Group;

fn told_group(group: &Group) -> GroupTold
    ensures { result ≡ group_told group.now }
{
    match &group.value {
        Value::Long(number) => GroupTold {
            number: *number,
            length: 0,
            documents: group.count,
            is_text: 0,
            zero: 0,
        },
        Value::Text(text) => GroupTold {
            number: 0,
            length: text.len() as u64,
            documents: group.count,
            is_text: 1,
            zero: 0,
        },
    }
}

fn no_group() -> GroupTold
    ensures { result ≡ no_group }
{
    GroupTold {
        number: 0,
        length: 0,
        documents: 0,
        is_text: 0,
        zero: 0,
    }
}

/// Tells the group of a number, from 0. If there is none, all that is told is 0.
pub fn group_at(groups: &[Group], number: usize, told: &mut GroupTold) -> i32
    ensures there { result ≡ pos 0 → option_map group_told (slice_get groups.now number) ≡ Some told.new }
    ensures none { result ≢ pos 0 → slice_get groups.now number ≡ None }
    ensures bounds { result ≢ OK → result ≡ BOUNDS }
    ensures zeros { result ≢ OK → told.new ≡ no_group }
{
    match groups.get(number) {
        Some(group) => {
            *told = told_group(group);
            OK
        }
        None => {
            *told = no_group();
            BOUNDS
        }
    }
}

/// The bytes of the text of a group; none where there is no such text.
pub fn group_text_at(groups: &[Group], number: usize) -> &[u8]
    ensures { result.now ≡ group_text (slice_get groups.now number) }
{
    match groups.get(number) {
        Some(group) => match &group.value {
            Value::Long(_) => &[],
            Value::Text(text) => text.as_str().as_bytes(),
        },
        None => &[],
    }
}
