//! Tests that can't be cases, of the crates up to one segment: growths that are refused, and blocks of every width.
#![tactic(auto)]

#[cfg(test)]
mod document;
#[cfg(test)]
mod fixtures;
#[cfg(test)]
mod growths;
#[cfg(test)]
mod lists;
#[cfg(test)]
mod pack;
#[cfg(test)]
mod schema;
#[cfg(test)]
mod segment;
