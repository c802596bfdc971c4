//! Tests of files that are made of images.

#[cfg(test)]
mod texts;
#[cfg(test)]
mod writing;
