//! What a file system in memory says to each call: where a path leads, what refuses the
//! call, and what it reads.
#![tactic(auto)]

mod children;
mod lookups;
mod mounts;
mod reads;
mod refusals;
mod walking;

pub use children::read_children;
pub use lookups::{folder_at, lookup, place_of, starts_mount};
pub use mounts::{is_full, mount_of};
pub use reads::{bytes_at, read_bytes, read_meta};
pub use refusals::{
    refuse_list, refuse_make, refuse_read, refuse_read_link, refuse_remove_file,
    refuse_remove_folder, refuse_rename, refuse_set_mode, refuse_stat, refuse_sync_file,
    refuse_sync_folder, refuse_write,
};
pub use walking::{Spot, find, find_in, found, found_in, walk};
