ghost use Rattle.std.specs.Prelude.{◌≡◌, ◌<◌, ◌≤◌, length};
ghost use Rattle.wire_words.specs.Tree.{zero_tag, int1, int2, int4};
ghost use Rattle.wire_words.specs.Spelling.{shortest, spelled_number};

use std::marker::Model;
use tars_wire::WireType;

/// An int as a field, in its shortest form.
#[derive(Drop)]
pub(crate) struct ShortNumber {
    bytes: [u8; 5],
    len: usize,
}

impl Model for ShortNumber {
    ghost use Rattle.std.specs.Prelude.{◌≤◌, ℕ, List, take};

    ghost Value = { List ℕ };

    ghost view = { λ n. take n.len n.bytes };

    ghost invariant = { λ n. n.len ≤ 5 };
}

#[tactic(auto, unfolding(wire_words::specs::Spelling::spelled_number, wire_words::specs::Spelling::two_complement, wire_words::specs::Spelling::head))]
impl ShortNumber {
    fn zero(tag: u8) -> ShortNumber
        requires { tag < 15 }
        ensures { result ≡ spelled_number tag zero_tag }
    {
        let head = tag * 16 + WireType::ZeroTag.code();
        ShortNumber {
            bytes: [head, 0, 0, 0, 0],
            len: 1,
        }
    }

    fn of_byte(tag: u8, number: i8) -> ShortNumber
        requires { tag < 15 }
        ensures { result ≡ spelled_number tag (int1 number) }
    {
        let head = tag * 16 + WireType::Int1.code();
        let [a] = number.to_be_bytes();
        ShortNumber {
            bytes: [head, a, 0, 0, 0],
            len: 2,
        }
    }

    fn of_short(tag: u8, number: i16) -> ShortNumber
        requires { tag < 15 }
        ensures { result ≡ spelled_number tag (int2 number) }
    {
        let head = tag * 16 + WireType::Int2.code();
        let [a, b] = number.to_be_bytes();
        ShortNumber {
            bytes: [head, a, b, 0, 0],
            len: 3,
        }
    }

    fn of_int(tag: u8, number: i32) -> ShortNumber
        requires { tag < 15 }
        ensures { result ≡ spelled_number tag (int4 number) }
    {
        let head = tag * 16 + WireType::Int4.code();
        let [a, b, c, d] = number.to_be_bytes();
        ShortNumber {
            bytes: [head, a, b, c, d],
            len: 5,
        }
    }

    pub fn new(tag: u8, number: i32) -> ShortNumber
        requires { tag < 15 }
        ensures { result ≡ spelled_number tag (shortest number) }
    {
        if number == 0 {
            ShortNumber::zero(tag)
        } else if let Ok(number) = i8::try_from(number) {
            ShortNumber::of_byte(tag, number)
        } else if let Ok(number) = i16::try_from(number) {
            ShortNumber::of_short(tag, number)
        } else {
            ShortNumber::of_int(tag, number)
        }
    }

    pub fn as_slice(&self) -> &[u8]
        ensures value { result.now ≡ self.now }
        ensures few { length result.now ≤ 5 }
    {
        &self.bytes[..self.len]
    }
}
