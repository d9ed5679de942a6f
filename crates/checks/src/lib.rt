// What a call finds wrong before it does its work: refusal.rt names it, fit.rt finds it in the record, check.rt in words, outputs
// and places. And what it adds to the record's counts where nothing is wrong: count.rt.
#![tactic(auto)]

pub mod check;
pub mod count;
pub mod fit;
pub mod refusal;
