//! The codec for a benchmark in C or Rust, which can hold no schema: each call takes an interface file and works on
//! values of the struct that it declares last, as many times as it is told. What it makes is left in a slice of the
//! caller's. Read `specs/Bench.antt` first; the driver is bench/codec.
#![tactic(auto)]

mod decoding;
mod encoding;
mod leaving;
mod opening;

pub use decoding::codec_bench_decode;
pub use encoding::codec_bench_encode;
