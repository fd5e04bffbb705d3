// The codes that calls return to C, as `dilforec.h` names them.

/// The call did what it is for.
pub const OK: i32 = 0;

/// Memory was refused.
pub const MEMORY: i32 = 1;

/// The line has more than 4,194,304 bytes.
pub const LINE_TOO_LONG: i32 = 2;

/// There were 2^61 lines, and no further one is taken.
pub const USED_UP: i32 = 3;

/// The handle is closed.
pub const CLOSED: i32 = 4;

/// There is nothing that the call could work on: no schema, no merge that is due, or none that was run to end.
pub const NOTHING: i32 = 5;

/// What a merge made can't replace its sources, since one is gone. The merge is given up.
pub const GONE: i32 = 6;

/// The limit of merges that means none.
pub const NO_LIMIT: u32 = u32::MAX;

/// The length of a reply of a closed handle.
pub const NO_REPLY: usize = usize::MAX;

/// The byte of a query that isn't refused as `Syntax`.
pub const NO_BYTE: usize = usize::MAX;
