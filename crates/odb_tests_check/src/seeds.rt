//! What a seed is made of: eight bytes of the source that is given.

use odb_check::Seed;
use std::io::{self, ErrorKind, Read};
use std::random::RandomSource;

/// How many seeds are drawn. Of 256 seeds it would be likely within 20 that one comes twice.
const DRAWS: usize = 64;

/// Gives the eight bytes of a number, the lowest first, and no more.
#[derive(Drop)]
struct Bytes(u64);

impl RandomSource for Bytes {
    fn fill_bytes(&self, buf: &mut [u8]) -> io::Result<()> {
        let bytes = self.0.to_le_bytes();
        let mut left = bytes.as_slice();
        left.read_exact(buf)
    }
}

/// Gives nothing.
#[derive(Drop)]
struct Dry;

impl RandomSource for Dry {
    fn fill_bytes(&self, _buf: &mut [u8]) -> io::Result<()> {
        Err(io::Error::from(ErrorKind::Other))
    }
}

/// Whether the bytes of a number make the seed of it.
fn is_read(number: u64) -> bool {
    match Seed::random(&Bytes(number)) {
        Ok(seed) => seed == Seed::new(number),
        Err(_) => false,
    }
}

#[test]
fn reads_every_bit_of_eight_bytes(rt: HostRuntime) {
    for bit in 0_u32..64 {
        let number = 1_u64 << bit;
        assert!(rt; is_read(number) && is_read(u64::MAX - number));
    }
}

/// Adds a seed to those that were drawn, unless it is one of them.
fn is_new<R: RandomSource>(random: &R, drawn: &mut Vec<Seed>) -> bool {
    match Seed::random(random) {
        Ok(seed) => !drawn.contains(&seed) && drawn.push(seed).is_ok(),
        Err(_) => false,
    }
}

#[test]
fn draws_no_seed_twice(rt: HostRuntime) {
    let mut drawn = Vec::new(rt.alloc());
    for _ in 0..DRAWS {
        assert!(rt; is_new(&rt, &mut drawn));
    }
}

#[test]
fn is_not_made_of_nothing(rt: HostRuntime) {
    assert!(rt; Seed::random(&Dry).is_err() && Seed::new(0) != Seed::none());
}
