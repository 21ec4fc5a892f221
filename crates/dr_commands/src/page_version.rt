//! Versions of data pages.

/// The versions of the data pages that files are written in.
#[derive(Clone, Copy)]
pub enum PageVersion {
    V1,
    V2,
}
