// The tables of kinds, for a person to hold against the papers line by line, in the papers' order (docs/FORMAT.md 4). A kind's line reads
//     Line(name, type byte or code, smallest length, limit, number)
// where b'P' is the letter P, LARGE is the papers' L, and the number is the kind's for hosts in other languages, which is on no paper.
// All other code takes these lines: a decoder its own, the type bytes and codes, the names of the listing. A contract takes the rows of specs/Kinds, which have
// each kind's fields too; that the two are the same is proved (`tables::line_at`).
// Inner: for crates of this library alone (docs/INNER.md).

// The two limits of a length: L, and that of all other kinds.
pub const LARGE: u32 = 1048576;

pub const SMALL: u32 = 8192;

// A line, of the parts named above. It has no field names, so that a table's line is one line for the eye, with its parts in columns. Its name is filled up with
// spaces and is no slice: `tables::letters_in`, which docs/INNER.md promises of such an array, is what the listing and a test program count by.
#[derive(Clone, Copy, Debug, PartialEq, Eq)]
pub struct Line(pub [u8; 20], pub u32, pub u32, pub u32, pub u8);

// ---- from the frontend, mode 0
pub const PARSE: Line = Line(*b"Parse               ", b'P' as u32, 8, LARGE, 1);

pub const BIND: Line = Line(*b"Bind                ", b'B' as u32, 12, LARGE, 2);

pub const CLOSE: Line = Line(*b"Close               ", b'C' as u32, 6, SMALL, 3);

pub const DESCRIBE: Line = Line(*b"Describe            ", b'D' as u32, 6, SMALL, 4);

pub const EXECUTE: Line = Line(*b"Execute             ", b'E' as u32, 9, SMALL, 5);

pub const FLUSH: Line = Line(*b"Flush               ", b'H' as u32, 4, SMALL, 6);

pub const SYNC: Line = Line(*b"Sync                ", b'S' as u32, 4, SMALL, 7);

pub const COPY_DONE: Line = Line(*b"CopyDone            ", b'c' as u32, 4, SMALL, 8);

pub const COPY_DATA: Line = Line(*b"CopyData            ", b'd' as u32, 4, LARGE, 9);

pub const COPY_FAIL: Line = Line(*b"CopyFail            ", b'f' as u32, 5, SMALL, 10);

pub const QUERY: Line = Line(*b"Query               ", b'Q' as u32, 5, SMALL, 34);

pub const TERMINATE: Line = Line(*b"Terminate           ", b'X' as u32, 4, SMALL, 35);

// ---- from the backend, mode 1; CopyDone and CopyData as above
pub const PARSE_COMPLETE: Line = Line(*b"ParseComplete       ", b'1' as u32, 4, SMALL, 11);

pub const BIND_COMPLETE: Line = Line(*b"BindComplete        ", b'2' as u32, 4, SMALL, 12);

pub const CLOSE_COMPLETE: Line = Line(*b"CloseComplete       ", b'3' as u32, 4, SMALL, 13);

pub const PORTAL_SUSPENDED: Line = Line(*b"PortalSuspended     ", b's' as u32, 4, SMALL, 14);

pub const NO_DATA: Line = Line(*b"NoData              ", b'n' as u32, 4, SMALL, 15);

pub const EMPTY_QUERY_RESPONSE: Line = Line(*b"EmptyQueryResponse  ", b'I' as u32, 4, SMALL, 16);

pub const ROW_DESCRIPTION: Line = Line(*b"RowDescription      ", b'T' as u32, 6, LARGE, 17);

pub const PARAMETER_DESCRIPTION: Line = Line(*b"ParameterDescription", b't' as u32, 6, LARGE, 18);

pub const DATA_ROW: Line = Line(*b"DataRow             ", b'D' as u32, 6, LARGE, 19);

pub const COMMAND_COMPLETE: Line = Line(*b"CommandComplete     ", b'C' as u32, 5, SMALL, 20);

pub const READY_FOR_QUERY: Line = Line(*b"ReadyForQuery       ", b'Z' as u32, 5, SMALL, 21);

pub const ERROR_RESPONSE: Line = Line(*b"ErrorResponse       ", b'E' as u32, 5, LARGE, 22);

pub const NOTICE_RESPONSE: Line = Line(*b"NoticeResponse      ", b'N' as u32, 5, LARGE, 23);

pub const COPY_IN_RESPONSE: Line = Line(*b"CopyInResponse      ", b'G' as u32, 7, SMALL, 24);

pub const COPY_OUT_RESPONSE: Line = Line(*b"CopyOutResponse     ", b'H' as u32, 7, SMALL, 25);

pub const COPY_BOTH_RESPONSE: Line = Line(*b"CopyBothResponse    ", b'W' as u32, 7, SMALL, 26);

pub const NOTIFICATION_RESPONSE: Line = Line(*b"NotificationResponse", b'A' as u32, 10, LARGE, 27);

pub const PARAMETER_STATUS: Line = Line(*b"ParameterStatus     ", b'S' as u32, 6, SMALL, 36);

pub const BACKEND_KEY_DATA: Line = Line(*b"BackendKeyData      ", b'K' as u32, 12, SMALL, 37);

// ---- a client's first packet, mode 5; the cancel request is mode 2's too
pub const STARTUP: Line = Line(*b"Startup             ", 196608, 9, SMALL, 31);

pub const SSL_REQUEST: Line = Line(*b"SslRequest          ", 80877103, 8, SMALL, 32);

pub const GSS_ENC_REQUEST: Line = Line(*b"GssEncRequest       ", 80877104, 8, SMALL, 33);

pub const CANCEL_REQUEST: Line = Line(*b"CancelRequest       ", 80877102, 16, SMALL, 28);

// ---- the answers to a request for TLS and for GSS encryption, modes 3 and 4: one byte, which is all of the frame
pub const SSL_ACCEPT: Line = Line(*b"SslResponse         ", b'S' as u32, 1, 1, 29);

pub const SSL_REFUSE: Line = Line(*b"SslResponse         ", b'N' as u32, 1, 1, 29);

pub const GSS_ACCEPT: Line = Line(*b"GssEncResponse      ", b'G' as u32, 1, 1, 30);

pub const GSS_REFUSE: Line = Line(*b"GssEncResponse      ", b'N' as u32, 1, 1, 30);

// ---- the lines of each mode, in the papers' order
pub const FRONTEND: [Line; 12] = [
    PARSE, BIND, CLOSE, DESCRIBE, EXECUTE, FLUSH, SYNC, COPY_DONE, COPY_DATA, COPY_FAIL, QUERY,
    TERMINATE,
];

pub const BACKEND: [Line; 21] = [
    PARSE_COMPLETE,
    BIND_COMPLETE,
    CLOSE_COMPLETE,
    PORTAL_SUSPENDED,
    NO_DATA,
    EMPTY_QUERY_RESPONSE,
    COPY_DONE,
    ROW_DESCRIPTION,
    PARAMETER_DESCRIPTION,
    DATA_ROW,
    COMMAND_COMPLETE,
    READY_FOR_QUERY,
    ERROR_RESPONSE,
    NOTICE_RESPONSE,
    COPY_IN_RESPONSE,
    COPY_OUT_RESPONSE,
    COPY_BOTH_RESPONSE,
    NOTIFICATION_RESPONSE,
    COPY_DATA,
    PARAMETER_STATUS,
    BACKEND_KEY_DATA,
];

pub const CANCEL: [Line; 1] = [CANCEL_REQUEST];

pub const TLS_ANSWER: [Line; 2] = [SSL_ACCEPT, SSL_REFUSE];

pub const GSS_ANSWER: [Line; 2] = [GSS_ACCEPT, GSS_REFUSE];

pub const FIRST_PACKET: [Line; 4] = [STARTUP, SSL_REQUEST, GSS_ENC_REQUEST, CANCEL_REQUEST];

// ---- other numbers of the format

// The most elements of a list: the largest number of two bytes that is not negative, or that has no sign. A list's row says which.
pub const MOST_SIGNED: usize = 32767;

pub const MOST_UNSIGNED: usize = 65535;

// The largest length that a signed word can tell: above it, the word is negative.
pub const LONGEST: u32 = 2147483647;

// The bytes of the longest typed frame of all: a type byte is not counted by the length.
pub const LARGE_FRAME: usize = LARGE as usize + 1;
