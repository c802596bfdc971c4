//! Tests of images whose parts are ranges of bytes. They demand that the image is written, since
//! one that always ran out of memory would meet the contracts too.

#[cfg(test)]
mod written;
