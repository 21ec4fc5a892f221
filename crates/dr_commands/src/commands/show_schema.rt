//! The values of `schema`.

/// The values of `schema`.
#[derive(Drop)]
pub struct ShowSchema {
    /// The path of the Parquet file.
    pub file: String,
}
