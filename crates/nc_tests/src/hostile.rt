//! Hostile and truncated input, and devices of which one read or one write fails.

mod cuts;
pub mod devices;
mod fronts;
mod one_byte_off;
mod one_fault;
pub mod script;
