// The slots of a book's arrays: what is kept for a holder at a place, and where. A place is a sink for loads, a source for evidence, else a path.
// Each slot stands after the one before it, so that a figure more moves those that follow it.
use tariff::sizes::{EVIDENCE_KINDS, LAST_MONTH, LONG_TERM_STEP, MAX_HOLDERS, MAX_PLACES, TERMS};

// A row of slots to each holder at each place.
pub const ROWS: u64 = MAX_HOLDERS as u64 * MAX_PLACES as u64;

// Load, by term 0 to 3.
pub const LOAD_SLOT: u64 = 0;

// Last year's allocation a, and what of it is left beside Long Term rights, a − l.
pub const PRIOR_ALLOCATED_SLOT: u64 = LOAD_SLOT + TERMS;

pub const PRIOR_REMAINING_SLOT: u64 = PRIOR_ALLOCATED_SLOT + 1;

// Carried and awarded holding, by month 1 to 3: month 1 stands first.
pub const CARRIED_SLOT: u64 = PRIOR_REMAINING_SLOT + 1;

pub const AWARDED_SLOT: u64 = CARRIED_SLOT + LAST_MONTH;

// What the open tier has nominated.
pub const NOMINATED_SLOT: u64 = AWARDED_SLOT + LAST_MONTH;

// Awards, by tier 0 to 10; 0 is no tier, and has none, and 10 is the Long Term step (02, 1/14).
pub const AWARDS_SLOT: u64 = NOMINATED_SLOT + 1;

// Coverage of a term by evidence (02, 2/14): by kind of evidence 1 and 2, and within a kind by term 0 to 3.
pub const COVERAGE_SLOT: u64 = AWARDS_SLOT + (LONG_TERM_STEP + 1);

// Whether evidence is ten-year evidence, 1 or 0, by kind of evidence 1 and 2 (02, 1/14).
pub const TEN_YEAR_SLOT: u64 = COVERAGE_SLOT + EVIDENCE_KINDS * TERMS;

pub const FIGURE_SLOTS: u64 = TEN_YEAR_SLOT + EVIDENCE_KINDS;

// After the figures stand the tier last closed, the open one, and whether the Long Term step was held, 1 or 0.
pub const LAST_CLOSED_AT: usize = (ROWS * FIGURE_SLOTS) as usize;

pub const CURRENT_TIER_AT: usize = LAST_CLOSED_AT + 1;

pub const STEP_HELD_AT: usize = CURRENT_TIER_AT + 1;

pub const FIGURE_COUNT: usize = STEP_HELD_AT + 1;

pub type Figures = [u64; FIGURE_COUNT];

// What was posted: load by term, carry, prior, evidence by kind.
pub const LOAD_POSTED_SLOT: u64 = 0;

pub const CARRY_POSTED_SLOT: u64 = LOAD_POSTED_SLOT + TERMS;

pub const PRIOR_POSTED_SLOT: u64 = CARRY_POSTED_SLOT + 1;

pub const EVIDENCE_POSTED_SLOT: u64 = PRIOR_POSTED_SLOT + 1;

pub const POSTED_SLOTS: u64 = EVIDENCE_POSTED_SLOT + EVIDENCE_KINDS;

pub const POSTED_COUNT: usize = (ROWS * POSTED_SLOTS) as usize;

pub type Postings = [bool; POSTED_COUNT];

// Evidence filed, by kind.
pub const EVIDENCE_SLOTS: u64 = EVIDENCE_KINDS;

pub const EVIDENCE_COUNT: usize = (ROWS * EVIDENCE_SLOTS) as usize;
