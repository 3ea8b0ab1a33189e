// A job that seeks a resource.
use ad_tree::Request;
use claim_table::ClaimTable;

/// A job without ports that seeks a resource: the table in which it stands, its place there, and its request.
#[derive(Clone, Copy)]
pub struct Seeker<'a> {
    pub claims: &'a ClaimTable,
    pub place: usize,
    pub request: &'a Request,
}
