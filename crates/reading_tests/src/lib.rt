//! Tests of how a script is read and its output written: bad lines, limits, readers and writers that break, and the words of the
//! command line.
//!
//! The lines that are refused, the limits and the texts come from the language's grammar and the program's manual.
#![tactic(auto)]

#[cfg(test)]
mod bad_lines;
#[cfg(test)]
mod beginnings;
#[cfg(test)]
mod breaking_streams;
#[cfg(test)]
mod command_line;
#[cfg(test)]
mod limits;
#[cfg(test)]
mod played;
