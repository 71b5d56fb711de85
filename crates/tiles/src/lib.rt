//! Tiles: what comes near a window of the plane, so that an overlay can be made window by window.
#![tactic(auto)]

mod cropping;
mod extent;
mod fault;
mod join_fault;
mod joined;
mod joining;
mod near;
mod tile;
mod tile_fault;
mod whole;
mod window;

pub use cropping::crop;
pub use fault::CropFault;
pub use join_fault::JoinFault;
pub use joined::given::Tiles;
pub use joining::join;
pub use tile::overlay_in;
pub use tile_fault::TileFault;
pub use whole::whole_of;
pub use window::Window;
