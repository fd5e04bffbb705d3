// Segments with their ids and their live bits, as a snapshot has them.

mod entry;
mod entry_list;
mod ids;
mod lookup;

pub use entry::{Entry, SegmentInfo};
pub use entry_list::{EntryIter, EntryList};
pub use ids::ID_LIMIT;
pub(crate) use ids::are_used_up;
pub(crate) use lookup::{Lookup, ids_of_entries, places};
