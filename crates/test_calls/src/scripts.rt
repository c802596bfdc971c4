//! Tests of scripts: what each line says, and why lines are rejected.

#[cfg(test)]
mod lines;
#[cfg(test)]
mod refusals;
#[cfg(test)]
mod rows;
#[cfg(test)]
mod shown;
