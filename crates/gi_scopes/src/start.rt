/// Where a test begins to look at a closed trail, and for how many scopes the trail may have
/// literals that aren't listed once it has looked.
#[derive(Clone, Copy)]
pub(crate) struct Start {
    pub(crate) from: usize,
    pub(crate) unlisted: u32,
}
