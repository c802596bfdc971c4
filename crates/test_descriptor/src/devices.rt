//! Tests of the calls of a descriptor over a device by which an update in place is done.

#[cfg(test)]
mod fronts;
#[cfg(test)]
mod homes;
#[cfg(test)]
mod places;
#[cfg(test)]
mod rooms;
#[cfg(test)]
mod settling;
#[cfg(test)]
mod writes;
