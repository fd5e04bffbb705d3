//! Merges that are run in other threads and ended later, beside commits and readers, and growths that are refused to
//! them.
#![tactic(auto)]

#[cfg(test)]
mod background;
#[cfg(test)]
mod busy;
#[cfg(test)]
mod growths;
#[cfg(test)]
mod steps;
#[cfg(test)]
mod threads;
