//! What no contract says of a full lane, and when a gate is called.

mod desks;
mod gates;
mod memory;
