//! Laws of packets on a stream. The functions do nothing: they are their contracts.

ghost use Rattle.std.specs.Prelude.{◌≡◌, ◌≤◌, ◌<◌, ◌+◌, ◌^◌, true, ℕ, List, ◌++◌, length};
ghost use Rattle.tars_frames.specs.Streams.{IsReading, IsBadAt, IsPacket, LENGTH_BYTES, SHORTEST, LONGEST, framed};
ghost use Rattle.tars_frames.specs.Cutting.{is_refused, packets_of, rest_of};

/// A stream has exactly one reading, and that of a longer stream carries it on.
pub fn one_reading()
    ensures some { (most : ℕ) (stream : List ℕ) → IsReading most stream (packets_of most stream) (rest_of most stream) }
    ensures one { (most : ℕ) (stream rest other_rest : List ℕ) (packets others : List (List ℕ))
        → IsReading most stream packets rest → IsReading most stream others other_rest → (packets ≡ others) × (rest ≡ other_rest) }
    ensures packets_carried_on { (most : ℕ) (stream more : List ℕ)
        → packets_of most (stream ++ more) ≡ packets_of most stream ++ packets_of most (rest_of most stream ++ more) }
    ensures rest_carried_on { (most : ℕ) (stream more : List ℕ)
        → rest_of most (stream ++ more) ≡ rest_of most (rest_of most stream ++ more) }
{}

/// A stream has one bad length at most, which stays where more follows it.
pub fn one_bad_length()
    ensures found { (most : ℕ) (stream : List ℕ) → is_refused most stream ≡ true → (place number : ℕ) × IsBadAt most stream place number }
    ensures only { (most : ℕ) (stream : List ℕ) (place number : ℕ) → IsBadAt most stream place number → is_refused most stream ≡ true }
    ensures one { (most : ℕ) (stream : List ℕ) (place number other_place other_number : ℕ) → IsBadAt most stream place number
        → IsBadAt most stream other_place other_number → (place ≡ other_place) × (number ≡ other_number) }
    ensures stays { (most : ℕ) (stream more : List ℕ) (place number : ℕ)
        → IsBadAt most stream place number → IsBadAt most (stream ++ more) place number }
{}

/// A body with its length before it is a packet.
pub fn framed_is_packet()
    ensures { (most : ℕ) (body : List ℕ) → SHORTEST ≤ length body + LENGTH_BYTES → length body + LENGTH_BYTES ≤ most
        → most < 2 ^ 32 → IsPacket most (framed body) }
{}

/// The limits, as numbers.
pub fn limits()
    ensures { (LENGTH_BYTES ≡ 4) × (SHORTEST ≡ 5) × (LONGEST ≡ 10485760) }
{}
