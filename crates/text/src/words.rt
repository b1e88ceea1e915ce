// The fixed words of the texts, one constant each: what a reader compares with is what a listing writes.

pub const PROTOCOL_HEADER: &[u8] = b"vn-protocol\t1";

pub const MAPPING_HEADER: &[u8] = b"vn-mapping\t1";

pub const MAPPING_HEADER_2: &[u8] = b"vn-mapping\t2";

pub const PLAN_HEADER: &[u8] = b"vn-plan\t1";

pub const JUDGE_HEADER: &[u8] = b"vn-judge\t1";

pub const MESSAGE: &[u8] = b"message";

pub const EVENT: &[u8] = b"event";

pub const STATE: &[u8] = b"state";

pub const CELL: &[u8] = b"cell";

pub const REQ: &[u8] = b"req";

pub const FWD: &[u8] = b"fwd";

pub const DATA: &[u8] = b"data";

pub const CTL: &[u8] = b"ctl";

pub const CACHE: &[u8] = b"cache";

pub const DIR: &[u8] = b"dir";

pub const STABLE: &[u8] = b"stable";

pub const TRANSIENT: &[u8] = b"transient";

pub const STALL: &[u8] = b"stall";

pub const GO: &[u8] = b"go";

pub const MAP: &[u8] = b"map";

pub const CLASS: &[u8] = b"class";

pub const NETWORKS: &[u8] = b"networks";

pub const CYCLE: &[u8] = b"cycle";

pub const FIT: &[u8] = b"fit";

pub const UNFIT: &[u8] = b"unfit";

pub const STEP: &[u8] = b"step";

pub const WAITS: &[u8] = b"waits";

pub const QUEUES: &[u8] = b"queues";

pub const REFUSED: &[u8] = b"refused";

// What parts fields, and what ends a line.
pub const TAB: &[u8] = b"\t";

pub const NEWLINE: &[u8] = b"\n";
