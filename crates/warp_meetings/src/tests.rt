//! Ports in threads of their own, sessions that meet, a server that pulls from another, and both timelines beside each other.

mod drawn;
mod lanes;
mod loopback;
mod memory;
mod ports;
mod servers;
mod steps;
