// Texts, as files and listings are written: what parts them.
#![tactic(auto)]

// What pieces the fields of a line.
pub const TAB: u8 = b'\t';

// What ends a line.
pub const LINE_FEED: u8 = b'\n';
