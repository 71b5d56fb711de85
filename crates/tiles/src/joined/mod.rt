//! Polygons of several windows: how they are told, whether they can be joined, and which come to a border.

pub(crate) mod checks;
pub(crate) mod gathering;
pub mod given;
pub(crate) mod windows;
