//! A source that gives its bytes in pieces, as a socket does.
ghost use Rattle.speedy.specs.MemoryDevices.{bytes_source};

use speedy::device::Source;
use std::io;

/// Bytes of which each pull gives a few.
#[derive(Drop)]
pub struct Pieces<'a> {
    pub left: &'a [u8],
}

impl<'a> Source for Pieces<'a> {
    ghost source = { λ s. bytes_source s.left.now };

    fn pull(&mut self, output: &mut [u8]) -> Result<usize, io::Error> {
        let count = output.len().min(5);
        self.left.pull(&mut output[..count])
    }
}
