//! The exit statuses of the program.

/// What the words asked for was done.
pub const DONE: u8 = 0;

/// The words are none of the table of commands.
pub const NO_COMMAND: u8 = 2;

/// The input is not whole: it ends within a message or a line, or has one that is none.
pub const NOT_WHOLE: u8 = 3;

/// Reading failed.
pub const READ_FAULT: u8 = 4;

/// Writing failed.
pub const WRITE_FAULT: u8 = 5;

/// There was no memory.
pub const NO_MEMORY: u8 = 6;

/// The input is longer than the most bytes that are read of one.
pub const TOO_LONG: u8 = 7;

/// The journal is illegal.
pub const ILLEGAL: u8 = 8;

/// A connection could not be accepted.
pub const ACCEPT_FAULT: u8 = 9;

/// The database, its table or a row of it was refused.
pub const DATABASE_REFUSED: u8 = 10;

/// The page lost its lock.
pub const LOST_LOCK: u8 = 11;

/// The page's polls were used up.
pub const GAVE_UP: u8 = 12;

/// The link to the state server was lost.
pub const LINK_FAULT: u8 = 13;

/// The state server refused a request of the page.
pub const REQUEST_REFUSED: u8 = 14;

/// What the state server sent is no reply.
pub const NO_REPLY: u8 = 15;

/// Listening was refused.
pub const NOT_LISTENING: u8 = 18;

/// The connection to the state server was refused.
pub const NOT_CONNECTED: u8 = 19;
