//! What the collections of keys that expire and the statuses of a sweep line share.

pub mod along;
pub mod descent;
pub mod insertion;
pub mod list;
pub mod live;
