//! The fields of one level.

ghost use Rattle.std.specs.Prelude.{◌≡◌, ℕ, List};
ghost use Rattle.tars_wire.specs.Left.{Remaining, LevelLeft, head_in, next_field, SomeLevel, AtLevel};

use super::known::{known_head, past_value};
use crate::head::Head;
use crate::level::Level;

/// The head of the next field; None at the end of the level.
pub fn next_head(here: Level, rest: &[u8]) -> Option<Head>
    requires { SomeLevel here rest.now }
    ensures { (room : ℕ) (inner : Remaining) (after : List ℕ) → LevelLeft room here inner rest.now after → result ≡ head_in (next_field inner) }
{
    if here.is_over(rest) {
        return None;
    }
    let (head, _) = known_head(rest);
    if head.kind.is_end() { None } else { Some(head) }
}

/// Past what is left at a level, and past its end.
pub fn past_level(room: u8, level: Level, bytes: &[u8]) -> &[u8]
    requires { AtLevel room level bytes.now }
    ensures { (inner : Remaining) (after : List ℕ) → LevelLeft room level inner bytes.now after → result.now ≡ after }
{
    let mut here = level;
    let mut rest = bytes;
    while next_head(here, rest).is_some() {
        let (head, after) = known_head(rest);
        rest = past_value(room, head.kind, after);
        here = here.less();
    }
    match here {
        Level::Struct => {
            let (_, after) = known_head(rest);
            after
        }
        Level::Body => rest,
        Level::List { .. } => rest,
        Level::Map { .. } => rest,
    }
}
