// Class lines, and their netting by pair of holders (01, Migration).
ghost use Rattle.std.specs.Prelude.{◌≡◌, Bool, ℕ, ◌+◌, ◌-◌, ◌*◌, ◌/◌, ◌<◌, ◌≤◌, length};
ghost use Rattle.tariff.specs.Sizes.{max_holders, max_customers, max_watts, watts_per_kw};
ghost use Rattle.tariff.specs.Sum.{any_of};
ghost use Rattle.netting.specs.ClassRanges.{class_line_out_of_range};
ghost use Rattle.netting.specs.Columns.{SameLengthsIn};
ghost use Rattle.netting.specs.Netting.{pair_at, pair_cells, unfit_line};

use tariff::sizes::{
    HOLDER_PAIRS, LAST_CLASS, MAX_CLASS_LINES, MAX_CUSTOMERS, MAX_HOLDERS, MAX_WATTS, WATTS_PER_KW,
};

// One line of a migration: customers of a class who left one LSE for another, and their average watts.
#[derive(Clone, Copy, Default)]
pub struct ClassLine {
    pub from: u64,
    pub to: u64,
    pub class: u64,
    pub customers: u64,
    pub watts: u64,
}

// Class lines whose fields stand in five slices: line k has the k-th number of each.
#[derive(Clone, Copy)]
pub struct ClassColumns<'a> {
    pub froms: &'a [u64],
    pub tos: &'a [u64],
    pub classes: &'a [u64],
    pub customers: &'a [u64],
    pub watts: &'a [u64],
}

// Class lines: columns of equal length, so that line k is there in each of them if it is in the first.
#[derive(Clone, Copy)]
pub struct ClassLines<'a> {
    pub columns: ClassColumns<'a>,
    ghost same_lengths: { SameLengthsIn columns },
}

// The m of each pair: what the way there has more than the way back, in kW rounded down.
fn netted_pairs(watts: [u64; HOLDER_PAIRS]) -> [u64; HOLDER_PAIRS]
    ensures { result ≡ pair_cells (λ i j. (pair_at watts i j - pair_at watts j i) / watts_per_kw) }
{
    std::array::from_fn(|k| {
        let back = k % MAX_HOLDERS * MAX_HOLDERS + k / MAX_HOLDERS;
        watts[k].saturating_sub(watts[back]) / WATTS_PER_KW
    })
}

impl ClassLine {
    // A line with a field outside its range: class 1 to 8, customers and average watts up to 9,999,999.
    #[tactic(auto, unfolding(crate::specs::ClassRanges::class_line_out_of_range, crate::specs::ClassRanges::class_fields_out_of_range, tariff::specs::Ranges::within))]
    pub fn is_out_of_range(self) -> bool
        ensures { result ≡ class_line_out_of_range self }
    {
        !(1..=LAST_CLASS).contains(&self.class)
            || MAX_CUSTOMERS < self.customers
            || MAX_WATTS < self.watts
    }

    // The watts of a line: customers × average watts.
    fn total_watts(self) -> u64
        requires { (self.customers ≤ max_customers) × (self.watts ≤ max_watts) }
        ensures { result ≡ self.customers * self.watts }
    {
        self.customers * self.watts
    }

    // A line that must not reach the sums: a holder past the eighth, or a field outside its range.
    #[tactic(auto, unfolding(crate::specs::Netting::unfit_line))]
    fn is_unfit(self) -> bool
        ensures { result ≡ unfit_line self }
    {
        MAX_HOLDERS as u64 <= self.from || MAX_HOLDERS as u64 <= self.to || self.is_out_of_range()
    }
}

impl<'a> ClassColumns<'a> {
    ghost use Rattle.std.specs.Bool.{then_some};
    ghost use Rattle.std.specs.Option.{option_map};
    ghost use Rattle.netting.specs.Columns.{same_counts_in, netting_in};

    // Whether each slice has as many numbers as the first.
    #[tactic(auto, unfolding(crate::specs::Netting::same_counts))]
    pub fn same_counts(self) -> bool
        ensures { result ≡ same_counts_in self.entry }
    {
        let n = self.froms.len();
        self.tos.len() == n
            && self.classes.len() == n
            && self.customers.len() == n
            && self.watts.len() == n
    }

    // The class lines of these columns, if they are of equal length.
    #[tactic(auto, using(crate::proofs::FitLines::same_lengths_lem))]
    pub fn lines(self) -> Option<ClassLines<'a>>
        ensures { option_map (λ lines. lines.columns) result ≡ then_some (same_counts_in self.entry) self.entry }
    {
        if self.same_counts() {
            Some(ClassLines { columns: self })
        } else {
            None
        }
    }

    // The m of each pair of eight holders, or nothing where the columns differ in length or their lines are unfit.
    #[tactic(auto, unfolding(crate::specs::Netting::netting_of, crate::specs::Netting::lines_fit))]
    pub fn net(self) -> Option<[u64; HOLDER_PAIRS]>
        ensures { result ≡ netting_in self.entry }
    {
        self.lines()?.net()
    }
}

impl<'a> ClassLines<'a> {
    ghost use Rattle.netting.specs.declared.netting.ClassLine.{ClassLine};
    ghost use Rattle.netting.specs.Columns.{SummableIn, lines_in, line_in, fit_in, netting_in, watts_in};

    // Line k.
    pub fn line(self, k: usize) -> ClassLine
        requires { k < length self.columns.froms.now }
        ensures { result ≡ line_in self.entry.columns k }
    {
        ClassLine {
            from: self.columns.froms[k],
            to: self.columns.tos[k],
            class: self.columns.classes[k],
            customers: self.columns.customers[k],
            watts: self.columns.watts[k],
        }
    }

    // Whether some line passes a test.
    pub fn any<F: Fn(ClassLine) -> bool>(self, test: F) -> bool
        requires { F.IsAlwaysCallable test }
        ensures { (passes : ClassLine → Bool) → ((line : ClassLine) (r : Bool) → F.post test line r → r ≡ passes line) → result ≡ any_of (lines_in self.entry.columns) passes }
    {
        (0..self.columns.froms.len())
            .map(|k| self.line(k))
            .any(test)
    }

    // Whether the lines can be netted: at most 64, and no line unfit.
    #[tactic(auto, using(crate::proofs::FitLines::counted), unfolding(crate::specs::Netting::lines_fit))]
    fn fit(self) -> bool
        ensures { result ≡ fit_in self.entry.columns }
    {
        self.columns.froms.len() <= MAX_CLASS_LINES && !self.any(|line| line.is_unfit())
    }

    // The watts of the lines, summed one way for each pair of holders.
    fn watts_of_pairs(self) -> [u64; HOLDER_PAIRS]
        requires { SummableIn self.columns }
        ensures { (i j : ℕ) → i < max_holders → j < max_holders → pair_at result i j ≡ watts_in self.entry.columns (length self.entry.columns.froms.now) i j }
    {
        let mut cells = [0u64; HOLDER_PAIRS];
        for k in 0..self.columns.froms.len() {
            let line = self.line(k);
            let pair = (line.from * MAX_HOLDERS as u64 + line.to) as usize;
            cells[pair] += line.total_watts();
        }
        cells
    }

    // The m of each pair of eight holders, or nothing where the lines are unfit: such lines reach no sum.
    pub fn net(self) -> Option<[u64; HOLDER_PAIRS]>
        ensures { result ≡ netting_in self.entry.columns }
    {
        if !self.fit() {
            return None;
        }
        Some(netted_pairs(self.watts_of_pairs()))
    }
}
