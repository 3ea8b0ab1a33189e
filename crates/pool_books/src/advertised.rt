// What is advertised.
use ad_tree::Ad;

/// An ad under its name, with the moment at which it is born, the time that it is live, and the length of its text.
#[derive(Drop)]
pub struct Advertised<'a> {
    pub name: &'a [u8],
    pub born: u64,
    pub lifetime: u64,
    pub text_len: u64,
    pub ad: Ad,
}
