//! Tests of the low crates, through their public calls: numbers, formats, the site file, file calls
//! on a tree, script lines, answers, inputs and the devices of the system. They show what no clause
//! says: bytes, digests and texts from outside, and that calls succeed with ample memory.
//!
//! Each call is made through a small function without `ensures`, so that a test's own proof carries
//! nothing, and a table of cases is one loop over data.
#![tactic(auto)]

#[cfg(test)]
mod answers;
#[cfg(test)]
mod calls;
#[cfg(test)]
mod devices;
#[cfg(test)]
mod directories;
#[cfg(test)]
mod formats;
#[cfg(test)]
mod inputs;
#[cfg(test)]
mod lines;
#[cfg(test)]
mod numbers;
#[cfg(test)]
mod parts;
#[cfg(test)]
mod site_file;
#[cfg(test)]
mod tables;
