// One of the entries that are counted of a list.
ghost use Rattle.std.specs.Prelude.{◌≡◌, get_or};
ghost use Rattle.records.specs.Opening.{with_room};

use tariff::entries::entry_at;

// The entry at a place, of entries of which the first `count` are used; `none` past those.
#[tactic(auto, using(crate::proofs::OpeningLaws::room_at, crate::proofs::OpeningLaws::room_past))]
pub fn counted_entry<T: Copy>(entries: &[T], count: u64, i: u64, none: T) -> T
    ensures { result ≡ get_or (with_room none count entries.now) i none }
{
    if count <= i {
        return none;
    }
    entry_at(entries, i as usize, none)
}
