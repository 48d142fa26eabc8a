// What stands in a table. A place past its end holds 0, and a part that goes past its end is empty.
ghost use Rattle.std.specs.Prelude.{◌≡◌};
ghost use Rattle.tariff.specs.Sizes.{setting_count};
ghost use Rattle.tariff.specs.Settings.{settings_of};
ghost use Rattle.tariff_rows.specs.Tables.{part_of};

use tariff::entries::entry_at;
use tariff::settings::Settings;
use tariff::sizes::SETTING_COUNT;

// The numbers from a start on.
#[tactic(auto, unfolding(crate::specs::Tables::part_of))]
pub fn part(table: &[u64], start: u64, count: u64) -> &[u64]
    ensures { result.now ≡ part_of table.now start count }
{
    match table.get(start as usize..) {
        Some(rest) if count as usize <= rest.len() => &rest[..count as usize],
        _ => &[],
    }
}

// The settings whose twelve numbers stand from a place on.
pub fn settings_at(table: &[u64], place: u64) -> Settings
    ensures { result ≡ settings_of (part_of table.now place setting_count) }
{
    let pairs = part(table, place, SETTING_COUNT as u64);
    Settings::from(std::array::from_fn(|k| entry_at(pairs, k, 0)))
}
