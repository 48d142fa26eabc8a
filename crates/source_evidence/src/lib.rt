// Evidence of a holder's sources: what it gives, when it counts, and what verify's numbers come to.
#![tactic(auto)]

pub mod evidence;
pub mod filing;
pub mod kind;
