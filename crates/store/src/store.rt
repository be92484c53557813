//! The phase memory as it is lent to a call that reads it.
use crate::directory::Directory;
use phases::Phase;

/// The directory of the sequences, and the records.
#[derive(Clone, Copy)]
pub struct Store<'a> {
    pub directory: &'a Directory,
    pub records: &'a [Phase],
}
