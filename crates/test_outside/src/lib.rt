//! Tests of sources, pairs of them, devices, sinks and sets of files, over their contracts alone.
#![tactic(auto)]

#[cfg(test)]
mod devices;
#[cfg(test)]
mod files;
#[cfg(test)]
mod pairs;
#[cfg(test)]
mod read_ahead;
#[cfg(test)]
mod scripts;
#[cfg(test)]
mod sinks;
#[cfg(test)]
mod sources;
#[cfg(test)]
mod steps;
#[cfg(test)]
mod system;
#[cfg(test)]
mod transfers;
#[cfg(test)]
mod visits;
#[cfg(test)]
mod windows;
