// Cells of flat arrays, by holder, place and slot.
ghost use Rattle.std.specs.Prelude.{◌≡◌, true, false, ◌+◌, ◌*◌, ◌^◌, ◌<◌, ◌≤◌};
ghost use Rattle.slots.specs.Cells.{rows, HasCell, IsCell, read_at, look_at, stored_at, added_at, cleared_to};
ghost use Rattle.slots.specs.Layout.{figure_slots, posted_slots};

use crate::layout::{FIGURE_SLOTS, Figures, LAST_CLOSED_AT, POSTED_SLOTS, Postings};
use tariff::sizes::{MAX_HOLDERS, MAX_PLACES};

// The cell of a holder, a place and a slot.
#[tactic(auto, using(crate::proofs::CellLaws::cell_small, crate::proofs::CellLaws::cell_below), unfolding(crate::specs::Cells::cell_of))]
pub fn cell(width: u64, h: u64, p: u64, slot: u64) -> usize
    requires { (width ≤ figure_slots) × HasCell width h p slot }
    ensures { IsCell width h p slot result }
{
    ((h * (MAX_PLACES as u64) + p) * width + slot) as usize
}

// What stands in a slot of the figures.
#[tactic(auto, unfolding(crate::specs::Cells::read_at))]
pub fn read(f: &Figures, h: u64, p: u64, slot: u64) -> u64
    requires { HasCell figure_slots h p slot }
    ensures { result ≡ read_at figure_slots 0 f.now h p slot }
{
    f[cell(FIGURE_SLOTS, h, p, slot)]
}

// A number stored in a slot of the figures.
#[tactic(auto, unfolding(crate::specs::Cells::stored_at))]
pub fn store(f: &mut Figures, h: u64, p: u64, slot: u64, v: u64)
    requires { HasCell figure_slots h p slot }
    ensures { f.new ≡ stored_at figure_slots f.old h p slot v }
{
    f[cell(FIGURE_SLOTS, h, p, slot)] = v;
}

// kw more in a slot of the figures.
#[tactic(auto, unfolding(crate::specs::Cells::added_at))]
pub fn add(f: &mut Figures, h: u64, p: u64, slot: u64, kw: u64)
    requires { HasCell figure_slots h p slot × (read_at figure_slots 0 f.old h p slot + kw < 2 ^ 64) }
    ensures { f.new ≡ added_at figure_slots f.old h p slot kw }
{
    let more = read(f, h, p, slot) + kw;
    store(f, h, p, slot, more);
}

// Whether something was posted, by holder, place and slot; where there is no slot, nothing was.
#[tactic(auto, unfolding(crate::specs::Cells::look_at, crate::specs::Cells::read_at))]
pub fn is_posted(posted: &Postings, h: u64, p: u64, slot: u64) -> bool
    ensures { result ≡ look_at posted_slots false posted.now h p slot }
{
    h < MAX_HOLDERS as u64
        && p < MAX_PLACES as u64
        && slot < POSTED_SLOTS
        && posted[cell(POSTED_SLOTS, h, p, slot)]
}

// Something noted as posted.
#[tactic(auto, unfolding(crate::specs::Cells::stored_at))]
pub fn set_posted(posted: &mut Postings, h: u64, p: u64, slot: u64)
    requires { HasCell posted_slots h p slot }
    ensures { posted.new ≡ stored_at posted_slots posted.old h p slot true }
{
    posted[cell(POSTED_SLOTS, h, p, slot)] = true;
}

// A slot of the figures put to 0 for every holder at every place. The rows end where the tier last closed stands.
#[tactic(auto, unfolding(crate::specs::Cells::cleared_to))]
pub fn clear(f: &mut Figures, slot: u64)
    requires { slot < figure_slots }
    ensures { f.new ≡ cleared_to figure_slots slot f.old rows }
{
    for at in (slot as usize..LAST_CLOSED_AT).step_by(FIGURE_SLOTS as usize) {
        f[at] = 0;
    }
}
