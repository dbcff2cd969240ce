//! Tests of the program as a call: `command` over sources and sinks that fail, with one worker and with several, and the documents
//! of pipelines. A file is named by the crate that it tests.
#![tactic(auto)]

#[cfg(test)]
mod of_rs_tool;
#[cfg(test)]
mod of_rs_tool_pipelines;
