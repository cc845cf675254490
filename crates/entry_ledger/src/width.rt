//! The index of a width among the widths.

ghost use Rattle.std.specs.Prelude.{◌≡◌, ◌<◌, true};
ghost use Rattle.store_api.specs.Ledgers.{is_width};
ghost use Rattle.entry_ledger.specs.Shelves.{row_of};

/// The number of widths.
pub const WIDTHS: usize = 11;

/// Returns the index of a width among the widths.
#[tactic(auto, unfolding(crate::specs::Shelves::row_of))]
pub fn place_of(width: u32) -> usize
    requires { is_width width ≡ true }
    ensures place { result ≡ row_of width }
    ensures below { result < 11 }
{
    match width {
        2 => 0,
        4 => 1,
        8 => 2,
        16 => 3,
        32 => 4,
        64 => 5,
        128 => 6,
        256 => 7,
        512 => 8,
        1024 => 9,
        _ => 10,
    }
}
