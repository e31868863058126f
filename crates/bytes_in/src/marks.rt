// The marks that records begin with.

use crate::MARK;

// ---- of a job stream: its settings, and a point

pub const SETTINGS: [u8; MARK] = *b"ST";

pub const POINT: [u8; MARK] = *b"PT";

// ---- of a stored tree: its head, a point, a level, and a domain

pub const HEAD: [u8; MARK] = *b"TH";

pub const FILE_POINT: [u8; MARK] = *b"TP";

pub const LEVEL: [u8; MARK] = *b"TL";

pub const DOMAIN: [u8; MARK] = *b"TD";
