//! Tests of what no clause says and no session of the built program shows: how often streams are
//! called and where they fail, limits and events that no script has, the calls that the program
//! does not make, and what happens at once. They stand in a crate above the libraries so that none
//! of these is proved once more for its tests. There is nothing here but tests.
#![tactic(auto)]

#[cfg(test)]
mod calls;
#[cfg(test)]
mod desk;
#[cfg(test)]
mod exports;
#[cfg(test)]
mod gates;
#[cfg(test)]
mod keeping;
#[cfg(test)]
mod lines;
#[cfg(test)]
mod locks;
#[cfg(test)]
mod logins;
#[cfg(test)]
mod pieces;
#[cfg(test)]
mod printer;
#[cfg(test)]
mod slow;
#[cfg(test)]
mod stores;
#[cfg(test)]
mod streams;
