// What a migration does to a book's figures, column by column (01, Migration).
ghost use Rattle.std.specs.Prelude.{◌≡◌, ◌↔◌, ◌&&◌, ◌+◌, ◌≤◌, eqb, IsTrue, EachIndex, slice_index};
ghost use Rattle.tariff.specs.Sizes.{max_holders, last_term};
ghost use Rattle.records.specs.Opening.{opening_of};
ghost use Rattle.slots.specs.Layout.{load_slot};
ghost use Rattle.transfers.specs.Columns.{HasColumn, in_column, column_at, column_stored, ColumnTransfer};
ghost use Rattle.transfers.specs.Transfers.{load_column, share_column, slot_moves, moves_at, column_where, load_at, LossesWithinLoads, ColumnFits, SlotFits, PathFits, RightsFit};

use netting::shares::{shares_of, transferred_column};
use records::setup::KeptOpening;
use slots::cells::{read, store};
use slots::layout::{
    AWARDED_SLOT, CARRIED_SLOT, Figures, LOAD_SLOT, NOMINATED_SLOT, PRIOR_ALLOCATED_SLOT,
};
use tariff::sizes::{HOLDER_PAIRS, MAX_HOLDERS, MAX_PLACES};

// What a migration transfers at a term and sink: the kW from holder i to holder j at i * 8 + j, each holder's load there before it,
// and how many holders there are.
#[derive(Clone, Copy)]
pub struct Transfer {
    pub term: u64,
    pub sink: u64,
    pub m: [u64; HOLDER_PAIRS],
    pub load: [u64; MAX_HOLDERS],
    pub holders: u64,
}

// What the eight holders have in a slot at a place.
pub fn column_at(f: &Figures, p: u64, slot: u64) -> [u64; MAX_HOLDERS]
    requires { HasColumn p slot }
    ensures { result ≡ column_at f.now p slot }
{
    std::array::from_fn(|h| read(f, h as u64, p, slot))
}

// A column stored in a slot at a place.
#[tactic(auto, using(crate::proofs::ColumnLaws::stored_more), unfolding(crate::specs::Columns::column_stored))]
fn store_column(f: &mut Figures, p: u64, slot: u64, column: [u64; MAX_HOLDERS])
    requires { HasColumn p slot }
    ensures { f.new ≡ column_stored f.old p slot column max_holders }
{
    for (h, &v) in column.iter().enumerate() {
        store(f, h as u64, p, slot, v);
    }
}

// Whether a column holds nothing.
fn is_empty(column: [u64; MAX_HOLDERS]) -> bool
    ensures { IsTrue result ↔ EachIndex column (λ h. slice_index column h ≡ 0) }
{
    column.iter().all(|&v| v == 0)
}

// Transfers the shares of one column of records. A column that holds nothing is left as it is.
fn transfer_column(f: &mut Figures, p: u64, slot: u64, x: Transfer)
    requires { HasColumn p slot × LossesWithinLoads x × ColumnFits x (in_column f.old p slot) }
    ensures { ColumnTransfer (column_where (λ q j. eqb q p && eqb j slot) (share_column x)) f.old f.new }
{
    let column = column_at(f, p, slot);
    if is_empty(column) {
        return;
    }
    let parts = shares_of(column, x.m, x.load);
    let next = transferred_column(column, &parts, x.holders as usize);
    store_column(f, p, slot, next);
}

// Whether a migration moves a slot of a path.
#[tactic(auto, unfolding(crate::specs::Transfers::slot_moves))]
fn slot_moves(term: u64, slot: u64) -> bool
    requires { term ≤ last_term }
    ensures { result ≡ slot_moves term slot }
{
    if term == 0 {
        (PRIOR_ALLOCATED_SLOT..AWARDED_SLOT).contains(&slot)
    } else {
        slot == CARRIED_SLOT + term - 1 || slot == AWARDED_SLOT + term - 1
    }
}

// Transfers the shares of one slot of a path, if it is one that moves.
fn transfer_slot(f: &mut Figures, p: u64, slot: u64, x: Transfer)
    requires { SlotFits f.old p slot x }
    ensures { ColumnTransfer (column_where (λ q j. (eqb q p && slot_moves x.term j) && eqb j slot) (share_column x)) f.old f.new }
{
    if !slot_moves(x.term, slot) {
        return;
    }
    transfer_column(f, p, slot, x);
}

// Transfers the shares of a path's slots, if its sink has this base. The slots that can move stand side by side: prior's, carried and awarded holdings.
fn transfer_path(f: &mut Figures, o: &KeptOpening, p: u64, x: Transfer)
    requires { PathFits o.now f.old x p }
    ensures { ColumnTransfer (column_where (λ q j. moves_at (opening_of o.entry) x.term x.sink q j && eqb q p) (share_column x)) f.old f.new }
{
    if o.path_base(p) != x.sink {
        return;
    }
    for slot in PRIOR_ALLOCATED_SLOT..NOMINATED_SLOT {
        transfer_slot(f, p, slot, x);
    }
}

// Transfers the shares of every slot that moves, path by path.
pub fn transfer_rights(f: &mut Figures, o: &KeptOpening, x: Transfer)
    requires { RightsFit o.now f.old x }
    ensures { ColumnTransfer (column_where (moves_at (opening_of o.entry) x.term x.sink) (share_column x)) f.old f.new }
{
    for p in 0..MAX_PLACES as u64 {
        transfer_path(f, o, p, x);
    }
}

// Transfers the load m of each pair at the sink and term.
pub fn transfer_load(f: &mut Figures, x: Transfer)
    requires { HasColumn x.sink (load_slot + x.term) × LossesWithinLoads x × (x.load ≡ column_at f.old x.sink (load_slot + x.term)) }
    ensures { ColumnTransfer (column_where (load_at x.term x.sink) (load_column x)) f.old f.new }
{
    let next = transferred_column(x.load, &x.m, x.holders as usize);
    store_column(f, x.sink, LOAD_SLOT + x.term, next);
}
