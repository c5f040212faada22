// Values as 32-bit words that a caller lends, both ways. Reading is total: any words are some value. What was laid into words is read back as it was.
#![tactic(auto)]

pub mod figures;
pub mod put;
