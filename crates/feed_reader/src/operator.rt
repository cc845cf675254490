//! The operators, the attributes that have them, and the form of an operator's value.
ghost use Rattle.std.specs.Prelude.{◌≡◌};
ghost use Rattle.feed_reader.specs.Operators.{operator_named, operator_form, value_form, weight_form};

use attr_types::{Kind, ValueType};

/// The member by which an update says how a field changes, or `match` how an item changes.
#[derive(Clone, Copy, Debug, PartialEq, Eq)]
pub enum Operator {
    Assign,
    Add,
    Remove,
    Increment,
    Decrement,
    Match,
    Other,
}

/// In which direction an amount changes a number.
#[derive(Clone, Copy, Debug, PartialEq, Eq)]
pub enum Way {
    Up,
    Down,
}

/// The form of an operator's value, which also determines the change.
#[derive(Clone, Copy, Debug, PartialEq, Eq)]
pub enum Form {
    /// The items of the kind, or `null`: they replace the existing items.
    Items,
    /// A list of values, which are appended.
    List,
    /// An object from value to weight, whose items are added.
    Weights,
    /// A list of values, or an object with these names: they are removed.
    Names,
    /// An amount, which is added to a single whole number.
    Amount(Way),
    /// An index of an array, and an operator on the value there.
    AtPlace,
    /// A value of a weighted set, and an operator on its weight.
    OfValue,
}

/// The form of the value of an operator on one item.
#[derive(Clone, Copy, Debug, PartialEq, Eq)]
pub enum ItemForm {
    /// A value or a weight that replaces the item's own.
    New,
    /// An amount, which is added to it.
    Amount(Way),
}

pub fn operator_in(name: &str) -> Operator
    ensures { result ≡ operator_named name.now }
{
    match name {
        "assign" => Operator::Assign,
        "add" => Operator::Add,
        "remove" => Operator::Remove,
        "increment" => Operator::Increment,
        "decrement" => Operator::Decrement,
        "match" => Operator::Match,
        _ => Operator::Other,
    }
}

/// Returns the form of an operator's value, if an attribute of this kind and value type has the operator.
pub fn operator_form(operator: Operator, kind: Kind, value: ValueType) -> Option<Form>
    ensures { result ≡ operator_form operator kind value }
{
    match (operator, kind, value) {
        (Operator::Assign, _, _) => Some(Form::Items),
        (Operator::Add, Kind::Array, _) => Some(Form::List),
        (Operator::Add, Kind::WeightedSet, _) => Some(Form::Weights),
        (Operator::Remove, Kind::WeightedSet, _) => Some(Form::Names),
        (Operator::Increment, Kind::Single, ValueType::Long) => Some(Form::Amount(Way::Up)),
        (Operator::Decrement, Kind::Single, ValueType::Long) => Some(Form::Amount(Way::Down)),
        (Operator::Match, Kind::Array, _) => Some(Form::AtPlace),
        (Operator::Match, Kind::WeightedSet, _) => Some(Form::OfValue),
        _ => None,
    }
}

/// Returns the form of the value of an operator on one value of an array, if the operator exists.
pub fn value_form(operator: Operator, value: ValueType) -> Option<ItemForm>
    ensures { result ≡ value_form operator value }
{
    match (operator, value) {
        (Operator::Assign, _) => Some(ItemForm::New),
        (Operator::Increment, ValueType::Long) => Some(ItemForm::Amount(Way::Up)),
        (Operator::Decrement, ValueType::Long) => Some(ItemForm::Amount(Way::Down)),
        _ => None,
    }
}

/// Returns the form of the value of an operator on one weight, if the operator exists.
pub fn weight_form(operator: Operator) -> Option<ItemForm>
    ensures { result ≡ weight_form operator }
{
    match operator {
        Operator::Assign => Some(ItemForm::New),
        Operator::Increment => Some(ItemForm::Amount(Way::Up)),
        Operator::Decrement => Some(ItemForm::Amount(Way::Down)),
        _ => None,
    }
}
