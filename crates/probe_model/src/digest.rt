//! A text's length and its Adler-32 sum: a line has them instead of the text.
use std::alloc::{AllocError, Global};

// The greatest prime below 2^16.
const MODULUS: u32 = 65521;

/// The length and the sum.
#[derive(Clone, Copy, PartialEq, Eq)]
pub struct Digest {
    length: usize,
    sum: u32,
    sum_of_sums: u32,
}

impl Digest {
    pub fn of(text: &str) -> Digest {
        let mut digest = Digest {
            length: 0,
            sum: 1,
            sum_of_sums: 0,
        };
        digest.add(text.as_bytes());
        digest
    }

    /// Makes it the digest of its text with these bytes after it.
    pub fn add(&mut self, bytes: &[u8]) {
        let (mut sum, mut sum_of_sums) = (self.sum, self.sum_of_sums);
        for byte in bytes {
            sum = sum.wrapping_add(u32::from(*byte)) % MODULUS;
            sum_of_sums = sum_of_sums.wrapping_add(sum) % MODULUS;
        }
        *self = Digest {
            length: self.length.saturating_add(bytes.len()),
            sum,
            sum_of_sums,
        };
    }

    pub fn message(&self, alloc: Global) -> Result<String, AllocError> {
        format!(in alloc; "{} {} {}", self.length, self.sum_of_sums, self.sum)
    }
}
