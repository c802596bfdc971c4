//! Tests of what copy makes, and why it makes nothing.

#[cfg(test)]
mod asked;
#[cfg(test)]
mod changed;
#[cfg(test)]
mod changes;
#[cfg(test)]
mod faults;
#[cfg(test)]
mod images;
