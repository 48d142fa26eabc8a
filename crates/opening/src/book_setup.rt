// What a book is opened with (01, The book; 02, 3/14).
use records::setup::{PathLine, SinkLine};
use tariff::settings::Settings;

// The counts beside what stands on the lines of the holders, sinks and paths, and the settings: any numbers, and as many lines as there are.
#[derive(Clone, Copy)]
pub struct BookSetup<'a> {
    pub holders: u64,
    pub sources: u64,
    pub sinks: u64,
    pub paths: u64,
    pub holder_kinds: &'a [u64],
    pub sink_lines: &'a [SinkLine],
    pub path_lines: &'a [PathLine],
    pub settings: Settings,
}
