// An ad as it lies in the table of slots.
use ad_tree::Ad;
use pool_text::Text;

/// An ad in its slot: its name, and what is held under it.
#[derive(Drop)]
pub(crate) struct Entry {
    pub(crate) name: Text,
    pub(crate) content: Content,
}

/// What is held under a name.
#[derive(Drop)]
pub(crate) struct Content {
    pub(crate) born: u64,
    pub(crate) lifetime: u64,
    pub(crate) size: u64,
    pub(crate) ad: Ad,
}
