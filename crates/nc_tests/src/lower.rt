//! Tests of `nc_gens`, `nc_work`, `nc_lines`, `nc_script`, `nc_command` and `nc_report`.

mod devices;
mod generations;
mod holding;
mod lines;
mod reports;
pub mod rows;
mod starting;
mod words;
mod workers;
mod writes;
