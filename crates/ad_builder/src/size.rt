// How large a tree is.

/// Whether a tree is higher than a machine builds, and where it isn't, how many ad literals it has, and how many definitions,
/// those that are replaced included. Numbers stop at the largest `u32`, far above the limits of a parse.
#[derive(Clone, Copy)]
pub struct Size {
    pub is_high: bool,
    pub frames: u32,
    pub definitions: u32,
}
