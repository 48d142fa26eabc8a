// Eligible quantities and limits.
use crate::rows::settings_at;
use crate::{limit_rows, write};
use std::io;
use tariff::limit::Sums;
use tariff::terms::term_of;

// The line of a load.
pub fn write_eligible(rt: &impl Print, row: &[u64; 2]) -> io::Result<()> {
    let [load, set] = *row;
    let Some(settings) = settings_at(&limit_rows::SETS, set).legal() else {
        return write::illegal(rt);
    };
    println!(rt;
        "eligible,{},{},{},{}",
        settings.seasonal_eligible(load),
        settings.priority_eligible(load),
        settings.eligible_without_evidence(load),
        settings.eligible_with_evidence(load)
    )
}

// The line of a tier.
pub fn write_row(rt: &impl Print, row: &[u64; 11]) -> io::Result<()> {
    let [
        tier,
        load,
        carried,
        prior,
        tier1,
        tier2,
        tier3,
        before,
        ten_year_kw,
        obaalse,
        set,
    ] = *row;
    let Some(settings) = settings_at(&limit_rows::SETS, set).legal() else {
        return write::illegal(rt);
    };
    let sums = Sums {
        load,
        carried,
        prior,
        tier1,
        tier2,
        tier3,
        before,
        ten_year_kw,
        obaalse: obaalse == 1,
    };
    println!(rt;
        "limit,{tier},{},{}",
        term_of(tier),
        settings.limit_of_sums(tier, sums)
    )
}
