//! The object of a script and its one node.

ghost use Rattle.std.specs.Prelude.{◌≡◌, ◌<◌, length};
ghost use Rattle.std.specs.List.{list_all};
ghost use Rattle.script_lines.specs.Objects.{is_part_byte, is_host_byte};
ghost use Rattle.script_lines.specs.ObjectSteps.{part, host, id, node, object_at};
ghost use Rattle.script_lines.specs.ScanSteps.{Gives};
ghost use Rattle.script_lines.specs.Views.{object_of};

use crate::limits::MAX_TIME;
use crate::numbers::within;
use crate::scan::word_before;

/// An object with its one node.
#[derive(Clone, Copy)]
pub struct ObjectWords<'a> {
    /// `APP.SERVER.OBJ`.
    pub id: &'a [u8],
    pub host: &'a [u8],
    pub port: u16,
    /// In milliseconds.
    pub timeout: u32,
}

/// Where the object is served.
#[derive(Drop)]
struct Node<'a> {
    host: &'a [u8],
    port: u16,
    timeout: u32,
}

fn has_only_part_bytes(word: &[u8]) -> bool
    ensures { result ≡ list_all is_part_byte word.now }
{
    word.iter().all(|byte| byte.is_ascii_alphabetic() || byte.is_ascii_digit() || *byte == b'_')
}

fn has_only_host_bytes(word: &[u8]) -> bool
    ensures { result ≡ list_all is_host_byte word.now }
{
    word.iter().all(|byte| {
        byte.is_ascii_alphabetic() || byte.is_ascii_digit() || *byte == b'.' || *byte == b'-'
    })
}

/// The bytes, if they are a part of an id.
#[tactic(auto, unfolding(crate::specs::ObjectSteps::part))]
fn part(word: &[u8]) -> Option<&[u8]>
    ensures { Gives (λ word. word.now) result (part word.now) }
{
    (!word.is_empty() && has_only_part_bytes(word)).then_some(word)
}

/// The bytes, if they are a host's name or address.
#[tactic(auto, unfolding(crate::specs::ObjectSteps::host))]
fn host(word: &[u8]) -> Option<&[u8]>
    ensures { Gives (λ word. word.now) result (host word.now) }
{
    (!word.is_empty() && has_only_host_bytes(word)).then_some(word)
}

/// The bytes, if they are an id of three parts.
#[tactic(auto, unfolding(crate::specs::ObjectSteps::id))]
fn id(word: &[u8]) -> Option<&[u8]>
    ensures { Gives (λ word. word.now) result (id word.now) }
{
    let (app, rest) = word_before(word, b".")?;
    part(app)?;
    let (server, object) = word_before(rest, b".")?;
    part(server)?;
    part(object)?;
    Some(word)
}

#[tactic(auto, unfolding(crate::specs::ObjectSteps::node))]
fn read_node(text: &[u8]) -> Option<Node<'_>>
    ensures { Gives (λ n. (n.host.now, (n.port, n.timeout))) result (node text.now) }
{
    let (host_text, rest) = word_before(text, b" -p ")?;
    let host = host(host_text)?;
    let (port, timeout) = word_before(rest, b" -t ")?;
    let port = within(port, 1, u32::from(u16::MAX))?;
    let timeout = within(timeout, 1, MAX_TIME)?;
    Some(Node {
        host,
        port: port as u16,
        timeout,
    })
}

impl<'a> ObjectWords<'a> {
    /// What the text says, if it says an object.
    #[tactic(auto, unfolding(crate::specs::ObjectSteps::object_at))]
    pub(crate) fn read(text: &'a [u8]) -> Option<ObjectWords<'a>>
        ensures { Gives object_of result (object_at text.now) }
    {
        let (word, node) = word_before(text, b"@tcp -h ")?;
        let id = id(word)?;
        let Node {
            host,
            port,
            timeout,
        } = read_node(node)?;
        Some(ObjectWords {
            id,
            host,
            port,
            timeout,
        })
    }
}
