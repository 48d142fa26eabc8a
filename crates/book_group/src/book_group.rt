// The book group that a script begins with (01, Script and host; 02, 3/14).
ghost use Rattle.std.specs.Prelude.{min, ◌≡◌};
ghost use Rattle.tariff.specs.Sizes.{max_places};
ghost use Rattle.opening.specs.Opened.{opened};
ghost use Rattle.book_group.specs.BookGroup.{opening_kept, book_group_of};

use counted_lines::book_lines::{BookLists, read_book_lines};
use lines::lines::next_row;
use lines::rows::{LineKind, Row};
use opening::book_setup::BookSetup;
use opening::opening::open;
use records::refusal::Refusal;
use records::setup::KeptOpening;
use tariff::sizes::MAX_PLACES;

// What the book group comes to: the opening of the book, or the refusal where none is open, and how many bytes it takes.
#[derive(Clone, Copy)]
pub struct BookGroup {
    pub opened: Result<KeptOpening, Refusal>,
    pub consumed: usize,
}

// How much of a list is lent: as much as is counted, at most 16.
fn lent_length(count: u64) -> usize
    ensures { result ≡ min count max_places }
{
    count.min(MAX_PLACES as u64) as usize
}

// Opens the book of a head from the lists and the settings of its lines. Where a count is above 16 a list is cut, and the count alone breaks the rules.
fn open_from_lists(head: Row, lists: BookLists) -> Result<KeptOpening, Refusal>
    ensures { result ≡ opened (opening_kept head lists) }
{
    let [holders, sources, sinks, paths, ..] = head.fields;
    open(BookSetup {
        holders,
        sources,
        sinks,
        paths,
        holder_kinds: &lists.holder_kinds[..lent_length(holders)],
        sink_lines: &lists.sink_lines[..lent_length(sinks)],
        path_lines: &lists.path_lines[..lent_length(paths)],
        settings: lists.settings,
    })
}

// Reads the book group at the start of a script and opens its book.
pub fn open_from_script(script: &[u8]) -> BookGroup
    ensures { result ≡ book_group_of script.now }
{
    let first = next_row(script);
    let head = first.row;
    let at_lines = first.consumed;
    let lines = read_book_lines(&script[at_lines..], head);
    let opened = match lines.lists {
        Some(lists) if head.kind == LineKind::Book => open_from_lists(head, lists),
        _ => Err(Refusal::Unreadable),
    };
    BookGroup {
        opened,
        consumed: at_lines + lines.consumed,
    }
}
