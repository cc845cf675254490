//! Keys in order.
ghost use Rattle.std.specs.Prelude.{◌≡◌, take, drop};
ghost use Rattle.std.specs.declared.cmp.Ordering.TheVariants.{Equal};
ghost use Rattle.result_model.specs.Orders.{in_order};

/// Puts keys in order, equal ones once.
pub fn put_in_order<T: Ord + Drop>(keys: &mut Vec<T>)
    requires exact { (x y : T) → T.cmp x y ≡ Equal → x ≡ y }
    ensures { keys.new.items ≡ in_order T.cmp keys.old.items }
{
    keys.sort_unstable();
    keys.dedup();
}

/// Returns the part of a list that has `count` elements after the first `from`, or as many as there are.
pub fn window<T>(list: &[T], from: usize, count: usize) -> &[T]
    ensures { result.now ≡ take count (drop from list.now) }
{
    let start = from.min(list.len());
    let rest = &list[start..];
    &rest[..count.min(rest.len())]
}
