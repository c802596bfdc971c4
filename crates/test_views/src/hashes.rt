//! Tests of hash sections that are rebuilt.

#[cfg(test)]
mod built;
#[cfg(test)]
mod dynamic;
#[cfg(test)]
mod images;
#[cfg(test)]
mod refused;
#[cfg(test)]
mod rehashed;
#[cfg(test)]
mod rows;
#[cfg(test)]
mod unhashed;
