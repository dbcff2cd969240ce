//! Tests of the low libraries, of what no document shows: sources and sinks that fail, values that no text spells, and a search
//! whose steps are counted. A file is named by the crate that it tests.
#![tactic(auto)]

#[cfg(test)]
mod of_rs_core;
#[cfg(test)]
mod of_rs_derivations;
#[cfg(test)]
mod of_rs_io;
#[cfg(test)]
mod of_rs_io_standard;
#[cfg(test)]
mod of_rs_machines;
#[cfg(test)]
mod of_rs_model;
#[cfg(test)]
mod of_rs_prefix;
#[cfg(test)]
mod of_rs_project;
#[cfg(test)]
mod of_rs_search;
#[cfg(test)]
mod of_rs_text;
#[cfg(test)]
mod of_rs_wellformed;
