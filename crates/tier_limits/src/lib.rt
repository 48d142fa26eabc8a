// The limit of a tier and a holder's ten-year evidence. Each function reads a book's lent arrays.
#![tactic(auto)]

pub mod limits;
pub mod ten_year;
