use crate::event::EventLine;
use crate::interface::InterfaceLine;
use crate::object::ObjectWords;
use crate::queue::QueueWords;
use crate::rule::RuleLine;

/// What the lines of a script say.
#[derive(Drop)]
pub struct ScriptLines<'a> {
    /// The name of the caller's interface file.
    pub client: &'a str,
    /// That of the server's, where it is said.
    pub server: Option<&'a str>,
    pub interface: InterfaceLine<'a>,
    pub object: ObjectWords<'a>,
    /// In the order of the lines. Each is of another function.
    pub rules: Vec<RuleLine<'a>>,
    pub queue: Option<QueueWords>,
    /// In the order of the lines.
    pub events: Vec<EventLine<'a>>,
}
