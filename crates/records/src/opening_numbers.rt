// An opening read from numbers, one list after another (01, The book; 02, 3/14).
ghost use Rattle.std.specs.Prelude.{◌≡◌, ◌+◌, ◌≤◌, get_or};
ghost use Rattle.tariff.specs.Sum.{tabulate};
ghost use Rattle.records.specs.OpeningNumbers.{opening_numbered};

use crate::setup::{KeptOpening, PathLine, SinkLine};
use tariff::entries::entry_at;
use tariff::settings::Settings;
use tariff::sizes::SETTING_COUNT;

// Where each list begins: the four counts stand before them.
const HOLDER_KINDS_AT: usize = 4;

const SINK_KINDS_AT: usize = 12;

const SINK_PARENTS_AT: usize = 28;

const PATH_SOURCES_AT: usize = 44;

const PATH_SINKS_AT: usize = 60;

const SETTINGS_AT: usize = 76;

const BASES_AT: usize = 88;

// So many numbers from a place on.
fn numbers_from<const N: usize>(numbers: &[u64], start: usize) -> [u64; N]
    requires { start ≤ 88 }
    ensures { result ≡ tabulate N (λ k. get_or numbers.now (start + k) 0) }
{
    std::array::from_fn(|k| entry_at(numbers, start + k, 0))
}

impl KeptOpening {
    // An opening whose counts, lists, settings and bases stand in a slice of any length, with any numbers.
    #[tactic(auto, unfolding(crate::specs::OpeningNumbers::opening_numbered))]
    pub fn from_numbers(numbers: &[u64]) -> KeptOpening
        ensures { result ≡ opening_numbered numbers.now }
    {
        let settings: [u64; SETTING_COUNT] = numbers_from(numbers, SETTINGS_AT);
        KeptOpening {
            holders: entry_at(numbers, 0, 0),
            sources: entry_at(numbers, 1, 0),
            sinks: entry_at(numbers, 2, 0),
            paths: entry_at(numbers, 3, 0),
            holder_kinds: numbers_from(numbers, HOLDER_KINDS_AT),
            sink_lines: std::array::from_fn(|s| SinkLine {
                kind: entry_at(numbers, SINK_KINDS_AT + s, 0),
                parent: entry_at(numbers, SINK_PARENTS_AT + s, 0),
            }),
            path_lines: std::array::from_fn(|p| PathLine {
                source: entry_at(numbers, PATH_SOURCES_AT + p, 0),
                sink: entry_at(numbers, PATH_SINKS_AT + p, 0),
            }),
            settings: Settings::from(settings),
            bases: numbers_from(numbers, BASES_AT),
        }
    }
}
