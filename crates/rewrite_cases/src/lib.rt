// Questions with the number of their ends and of the alternatives that are kept, and questions that are refused.
#![tactic(auto)]

#[cfg(test)]
mod counted;
#[cfg(test)]
mod making;
#[cfg(test)]
mod refused;
#[cfg(test)]
mod words;
