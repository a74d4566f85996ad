//! What no clause says of lanes: worked rows, and that what two ports are told is one history, by a list that the test
//! keeps.
mod boards;
mod draining;
mod history;
mod judge;
mod rings;
mod steps;
mod visits;
