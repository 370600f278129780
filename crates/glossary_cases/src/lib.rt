// Cases of glossaries and of lists of names: what is accepted, and what is refused, with the reason and the place.
#![tactic(auto)]

#[cfg(test)]
mod asking;
#[cfg(test)]
mod forms;
#[cfg(test)]
mod full_block;
#[cfg(test)]
mod lists;
#[cfg(test)]
mod making;
#[cfg(test)]
mod order;
#[cfg(test)]
mod replaced;
#[cfg(test)]
mod short_block;
#[cfg(test)]
mod sizes;
#[cfg(test)]
mod texts;
