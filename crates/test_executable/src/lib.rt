//! Tests of the commands over a whole executable, which is made of constant tables.
//!
//! It has the 31 sections and 14 program headers of a program that is linked dynamically, in a
//! layout of this project. Its section header table is before what is not loaded.
#![tactic(auto)]

#[cfg(test)]
mod commands;
#[cfg(test)]
mod contents;
#[cfg(test)]
mod faults;
#[cfg(test)]
mod halves;
#[cfg(test)]
mod image;
#[cfg(test)]
mod sections;
#[cfg(test)]
mod segments;
#[cfg(test)]
mod stripped;
