//! What is told of a report.

use ft_base::OutOfMemory;
use std::alloc::Global;

/// The length of a report, its hash, and how many of its lines tell of a refused line or begin a view.
#[derive(Clone, Copy, Debug, PartialEq, Eq)]
pub struct Sums {
    length: usize,
    hash: u32,
    refused: u64,
    views: u64,
}

impl Sums {
    /// Those of a report.
    pub fn of(report: &[u8]) -> Sums {
        let mut sums = Sums {
            length: report.len(),
            hash: hash_of(report),
            refused: 0,
            views: 0,
        };
        for line in report.split(|byte| *byte == b'\n') {
            if line.starts_with(b"line ") {
                sums.refused = sums.refused.saturating_add(1);
            } else if line.starts_with(b"client ") {
                sums.views = sums.views.saturating_add(1);
            }
        }
        sums
    }

    /// Adds the line of the counts, with that of the lines of the session, and whether its changes led from view to view.
    ///
    /// Returns `OutOfMemory` where there is no room for it.
    pub fn push_counts(
        &self,
        alloc: Global,
        lines: u64,
        is_followed: bool,
        output: &mut Vec<u8>,
    ) -> Result<(), OutOfMemory> {
        let refused = self.refused;
        let views = self.views;
        let word = if is_followed { "followed" } else { "lost" };
        let line = format!(in alloc; "lines {lines} refused {refused} views {views} {word}\n")?;
        output.extend_from_slice(line.as_bytes())?;
        Ok(())
    }

    /// Adds the line of the length and the hash.
    ///
    /// Returns `OutOfMemory` where there is no room for it.
    pub fn push_hash(&self, alloc: Global, output: &mut Vec<u8>) -> Result<(), OutOfMemory> {
        let length = self.length;
        let hash = self.hash;
        let line = format!(in alloc; "report {length} bytes hash {hash}\n")?;
        output.extend_from_slice(line.as_bytes())?;
        Ok(())
    }
}

// The hash of bytes: 0 at first, then 31 times itself plus the byte, modulo 2^32.
fn hash_of(bytes: &[u8]) -> u32 {
    bytes.iter().fold(0_u32, |hash, byte| {
        hash.wrapping_mul(31).wrapping_add(u32::from(*byte))
    })
}
