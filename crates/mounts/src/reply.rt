//! What an application is replied.
use version_model::Answer;
use xfs_base::Crosses;

/// What a client answered to an item.
#[derive(Drop)]
pub struct Reply {
    /// The item's number in the client's list, from 1.
    pub item: u32,
    /// The answer.
    pub answer: Answer,
}

impl Crosses for Reply {}
