/// How a query is served: by so many workers; with so many children to a server of the tree at most; a tablet that was
/// handed out is handed out again after so many more events; and so many hundredths of the tablets are enough.
#[derive(Clone, Copy)]
pub struct ServeOptions {
    pub workers: usize,
    pub fan: u32,
    pub lag: u64,
    pub least: u32,
}
