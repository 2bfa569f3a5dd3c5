use servant_core::Rule;
use tars_model::{List, Name, Schema, Value};

/// A node of an object: where it listens, and how long a call to it may take.
#[derive(Drop)]
pub struct Endpoint {
    pub host: Name,
    pub port: u16,
    /// Milliseconds.
    pub timeout: u32,
}

/// An object: its id `APP.SERVER.OBJ`, and its nodes in the order of the script.
#[derive(Drop)]
pub struct ObjectName {
    pub id: Name,
    pub nodes: List<Endpoint>,
}

/// How the servant replies to the calls of a function, which goes by its number in the server's interface.
#[derive(Drop)]
pub struct FuncRule {
    pub func: u32,
    pub rule: Rule,
}

/// A scripted call.
#[derive(Drop)]
pub struct CallSpec {
    /// The call's number in the script, from 1.
    pub call: u32,
    /// The caller's line, from 1.
    pub line: u32,
    /// The function's number in the client's interface, from 0.
    pub func: u32,
    /// Whether it waits for a reply.
    pub two_way: bool,
    /// Whether its line goes on before the reply has come.
    pub begin: bool,
    /// What nodes are chosen by.
    pub key: u64,
    pub args: List<Value>,
}

/// What happens next in a script (docs/SCRIPTS.md, "Events").
#[derive(Drop)]
pub enum Event {
    Call(CallSpec),
    /// The node reads so many of the bytes that wait, or all of them.
    Serve { node: u32, bytes: Option<u32> },
    /// The node answers its first request.
    Work { node: u32 },
    /// The caller reads so many of the bytes that wait of the node, or all of them.
    Deliver { node: u32, bytes: Option<u32> },
    Close,
}

/// A script with the interfaces of both sides.
#[derive(Drop)]
pub struct Session {
    /// What the caller's interface file declares.
    pub client: Schema,
    /// The number of the interface that the calls go to.
    pub client_interface: u32,
    /// What the server's interface file declares, which may be the caller's own.
    pub server: Schema,
    pub server_interface: u32,
    pub object: ObjectName,
    pub rules: List<FuncRule>,
    /// How many requests a node's queue holds.
    pub queue: u32,
    /// How long a request may wait there, in milliseconds.
    pub queue_timeout: u32,
    pub events: List<Event>,
}
