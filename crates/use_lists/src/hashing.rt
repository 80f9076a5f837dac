//! A hasher of nodes: those of neighboring rows stand side by side in a map.

ghost use Rattle.std.specs.Prelude.{◌≡◌, fold};
ghost use Rattle.use_lists.specs.Hashing.{mixed, spread};

use std::hash::Hasher;

/// Takes the bytes of a row, the lowest first, and of a place, and keeps the last seven. Rows that differ in their
/// lowest two bits alone share a group of a map.
#[derive(Clone, Copy)]
pub struct NodeHasher {
    state: u64,
}

impl Default for NodeHasher {
    ghost is_default = { λ h. h.state ≡ 0 };

    fn default() -> NodeHasher {
        NodeHasher { state: 0 }
    }
}

impl Hasher for NodeHasher {
    ghost write = { λ h bytes. record { state = fold mixed h.state bytes } };

    ghost finish = { λ h. spread h.state };

    fn finish(&self) -> u64 {
        let block = self.state / 1125899906842624 * 281474976710656 + self.state % 281474976710656;
        let low = self.state / 281474976710656 % 4;
        block.wrapping_mul(11400714819323198485) / 4294967296 + low * 1073741824
    }

    fn write(&mut self, bytes: &[u8]) {
        for b in bytes {
            self.state = (self.state ^ u64::from(*b)).wrapping_mul(256);
        }
    }
}
