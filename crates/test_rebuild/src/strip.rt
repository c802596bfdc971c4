//! Tests of the parts of strip: which sections it removes, and what follows in those that stay.

#[cfg(test)]
mod items;
#[cfg(test)]
mod kept;
#[cfg(test)]
mod removed;
