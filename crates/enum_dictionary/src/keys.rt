//! Values as sought keys: the stored keys are records.

ghost use Rattle.std.specs.Prelude.{◌≡◌, ◌∷◌, []};
ghost use Rattle.image_format.specs.Values.{stored_value, IsValueRecord};
ghost use Rattle.attr_types.specs.Value.{type_of, value_cmp};
ghost use Rattle.attr_types.specs.declared.kind.ValueType.TheVariants as types;
ghost use Rattle.enum_dictionary.specs.ProofsForKeys.{value_total, value_stays, value_steady};

use arena_api::Frozen;
use attr_types::Value;
use entry_ref::EntryRef;
use std::cmp::Ordering;
use std::marker::Model;
use tree_read::KeyOrder;
use unique_store::compare as compare_stored;

/// A long as a sought key: stored keys are records that read as longs.
#[derive(Drop)]
pub struct LongKey<'a> {
    value: &'a Value,
}

impl<'a> Model for LongKey<'a> {
    ghost use Rattle.std.specs.Prelude.{◌≡◌};
    ghost use Rattle.attr_types.specs.Value.{type_of};
    ghost use Rattle.attr_types.specs.declared.kind.ValueType.TheVariants as types;
    ghost use Rattle.attr_types.specs.declared.value.Value.{Value as AnyValue};

    ghost Value = { AnyValue };

    ghost view = { λ k. k.value.now };

    ghost invariant = { λ k. type_of k.value.now ≡ types.Long };
}

impl<'a> LongKey<'a> {
    pub fn new(value: &'a Value) -> LongKey<'a>
        requires { type_of value.now ≡ types.Long }
        ensures { result ≡ value.now }
    {
        LongKey { value }
    }
}

impl<'a, const OFFSET_BITS: u32> KeyOrder<OFFSET_BITS> for LongKey<'a> {
    type Read = Value;

    ghost can_read = { λ m key. IsValueRecord types.Long (m key) };

    ghost read = { stored_value types.Long };

    ghost reads_from = { λ m key. key ∷ [] };

    ghost order = { value_cmp };

    ghost sought = { λ k. k };

    fn compare<F: Frozen<OFFSET_BITS>>(&self, frozen: &mut F, stored: u64) -> Ordering {
        compare_stored(frozen, EntryRef::from_raw(stored as u32), self.value)
    }

    ghost total = { value_total };

    ghost stays = { value_stays types.Long };

    ghost steady = { value_steady types.Long };
}

/// A text as a sought key: stored keys are records that read as texts.
#[derive(Drop)]
pub struct TextKey<'a> {
    value: &'a Value,
}

impl<'a> Model for TextKey<'a> {
    ghost use Rattle.std.specs.Prelude.{◌≡◌};
    ghost use Rattle.attr_types.specs.Value.{type_of};
    ghost use Rattle.attr_types.specs.declared.kind.ValueType.TheVariants as types;
    ghost use Rattle.attr_types.specs.declared.value.Value.{Value as AnyValue};

    ghost Value = { AnyValue };

    ghost view = { λ k. k.value.now };

    ghost invariant = { λ k. type_of k.value.now ≡ types.Text };
}

impl<'a> TextKey<'a> {
    pub fn new(value: &'a Value) -> TextKey<'a>
        requires { type_of value.now ≡ types.Text }
        ensures { result ≡ value.now }
    {
        TextKey { value }
    }
}

impl<'a, const OFFSET_BITS: u32> KeyOrder<OFFSET_BITS> for TextKey<'a> {
    type Read = Value;

    ghost can_read = { λ m key. IsValueRecord types.Text (m key) };

    ghost read = { stored_value types.Text };

    ghost reads_from = { λ m key. key ∷ [] };

    ghost order = { value_cmp };

    ghost sought = { λ k. k };

    fn compare<F: Frozen<OFFSET_BITS>>(&self, frozen: &mut F, stored: u64) -> Ordering {
        compare_stored(frozen, EntryRef::from_raw(stored as u32), self.value)
    }

    ghost total = { value_total };

    ghost stays = { value_stays types.Text };

    ghost steady = { value_steady types.Text };
}
