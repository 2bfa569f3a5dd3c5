use crate::LinkLog;
use tars_decode::Refuse;
use tars_model::{List, Value};

/// The id under which a call's request is sent and its reply comes back.
#[derive(Clone, Copy, PartialEq, Eq)]
pub struct CallId(pub u32);

/// What was known of a node when it was chosen.
#[derive(Clone, Copy, PartialEq, Eq)]
pub enum Why {
    Live,
}

/// The node that was chosen for a call, from 1.
#[derive(Clone, Copy, PartialEq, Eq)]
pub struct PickNote {
    pub node: u32,
    pub why: Why,
}

/// Why a call was not sent.
#[derive(Clone, Copy, PartialEq, Eq)]
pub enum Refusal {
    /// As many calls of the line as its width were in flight.
    Full,
    /// The session was closed; with the word of the call table that told so.
    Closed { word: u64 },
}

/// The one outcome of a call. Links and packets are numbered from 1.
#[derive(Drop)]
pub enum End {
    /// The values that the reply has, whose return code is 0.
    Value {
        link: u32,
        packet: u64,
        values: List<Value>,
    },
    /// The reply's return code, which is not 0.
    Code {
        link: u32,
        packet: u64,
        code: i32,
    },
    /// The values of the reply, whose return code is 0, do not read.
    Undecoded {
        link: u32,
        packet: u64,
        refuse: Refuse,
    },
    /// The close found the call open.
    Closed,
    Refused(Refusal),
}

/// The row of a scripted call.
#[derive(Drop)]
pub struct Row {
    pub call: u32,
    pub line: u32,
    pub func: u32,
    pub two_way: bool,
    /// None where the call was refused before a node was chosen.
    pub pick: Option<PickNote>,
    /// None where the call was refused.
    pub id: Option<CallId>,
    pub end: End,
}

/// What the router did.
#[derive(Clone, Copy, PartialEq, Eq)]
pub enum RouteStep {
    Picked {
        call: u32,
        node: u32,
        why: Why,
        moment: u32,
        key: u64,
    },
    /// What came of a pick.
    Reported {
        call: u32,
        node: u32,
        stamp: u64,
        ok: bool,
        moment: u32,
    },
}

/// What happened in a session: a row per scripted call in order, a log per node in order, and the
/// steps of the router.
#[derive(Drop)]
pub struct Report {
    pub calls: List<Row>,
    pub links: List<LinkLog>,
    pub routes: List<RouteStep>,
}
