// Laws on what a map takes, packed: each is the contract of a function that does nothing.
ghost use Rattle.std.specs.Prelude.{◌≡◌, ℕ, ◌+◌, ◌^◌, ◌<◌, ◌≤◌, All, Bool, List, Some, length};
ghost use Rattle.std.specs.FinMap as fin;
ghost use Rattle.expiring_map.specs.ValueUntil.{ValueUntil};
ghost use Rattle.expiring_map.specs.Map.{Map};
ghost use Rattle.expiring_map.specs.Live.{live_part};
ghost use Rattle.kv_pairs.specs.Growth.{largest};
ghost use Rattle.kv_pairs.specs.Mapped.{put_item, packed_size, map_in, IsSmall};
ghost use Rattle.kv_pairs.specs.Fits.{FitsIn, FitsWithMore};

/// The map of a payload fits in as many bytes and four more: the heading takes four, and no spelling of a length is
/// shorter than the one that is written.
pub fn a_map_that_is_read_fits()
    ensures { (flag : Bool) (bytes : List ℕ) (m : Map) → All (λ b. b < 256) bytes → length bytes ≤ largest → map_in flag bytes ≡ Some m → FitsIn flag m (length bytes + 4) }
{}

/// A map that fits in some bytes, and into which the items of more bytes come, as `decode_from` reads them and `extend`
/// brings them in, fits in all of these bytes: a map that is kept can be continued behind its payload.
pub fn a_map_with_more_items_fits()
    ensures { FitsWithMore }
{}

/// A pair that is put adds its item at most, a key or pairs that go add nothing, and the empty map is the heading alone.
pub fn a_change_adds_its_item_at_most()
    ensures put { (flag : Bool) (m : Map) (key : List ℕ) (d : ValueUntil) → packed_size flag (fin.insert m key d) ≤ packed_size flag m + length (put_item flag key d) }
    ensures removed { (flag : Bool) (m : Map) (key : List ℕ) → packed_size flag (fin.remove m key) ≤ packed_size flag m }
    ensures live { (flag : Bool) (m : Map) (now : ℕ) → packed_size flag (live_part m now) ≤ packed_size flag m }
    ensures empty { (flag : Bool) → packed_size flag fin.empty ≡ 4 }
{}

/// A map has no more pairs than its payload has bytes, so one that fits in 2 ^ 30 is small.
pub fn a_map_that_fits_is_small()
    ensures pairs { (flag : Bool) (m : Map) → fin.len m ≤ packed_size flag m }
    ensures small { (flag : Bool) (m : Map) (size : ℕ) → FitsIn flag m size → size ≤ 2 ^ 30 → IsSmall m }
{}
