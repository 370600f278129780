// Why a call refuses, and where: one cause with a number for each reason in the whole system.
#![tactic(auto)]

mod cause;
mod memory;
mod refusing;
mod wording;

pub use cause::Cause;
pub use refusing::Refusal;

#[cfg(test)]
mod tests;
