//! Tests of the parts by which commands make an object. They demand that each ends, since one that
//! always ran out of memory would meet the contracts too.

#[cfg(test)]
mod made;
