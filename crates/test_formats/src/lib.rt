//! Tests of what is read and written without a descriptor, over the contracts alone: the tables of
//! the standard, texts, items and headers in all forms, layouts, archives, and line number
//! programs.
#![tactic(auto)]

#[cfg(test)]
mod archives;
#[cfg(test)]
mod fronts;
#[cfg(test)]
mod headers;
#[cfg(test)]
mod items;
#[cfg(test)]
mod layouts;
#[cfg(test)]
mod line_tables;
#[cfg(test)]
mod standard;
