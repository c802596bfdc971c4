//! Tests of the commands that show, over files and outputs in memory, one file a command.
#![tactic(auto)]

#[cfg(test)]
mod archives;
#[cfg(test)]
mod bad_members;
#[cfg(test)]
mod calls;
#[cfg(test)]
mod elflint;
#[cfg(test)]
mod faults;
#[cfg(test)]
mod letters;
#[cfg(test)]
mod lines;
#[cfg(test)]
mod nm;
#[cfg(test)]
mod overlaps;
#[cfg(test)]
mod parts;
#[cfg(test)]
mod readelf;
#[cfg(test)]
mod records;
#[cfg(test)]
mod size;
#[cfg(test)]
mod strings;
#[cfg(test)]
mod words;
