// The map file by its definition: the types of its parts, the bytes of each, the verdict on a list of bytes, and the
// laws that tie the two. The definitions are in specs/, and map_file meets them; what runs here is conversions alone.
#![tactic(auto)]

pub mod fault;
pub mod heading;
pub mod kind;
pub mod record;
