// What a name finds.
use pool_text::{AdPlace, Pos};

/// What a name finds: nothing, the root of a docked ad by the label of its port, or an attribute.
#[derive(Clone, Copy, PartialEq, Eq)]
pub enum Found {
    Nothing,
    Place(AdPlace),
    Attr(Pos),
}
