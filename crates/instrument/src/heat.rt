ghost use Rattle.std.specs.Prelude.{◌≡◌, ◌+◌, ◌<◌, ◌≤◌, ◌^◌, All, [], IfOk, OnOk, IsErrOf, length, slice_index, slice_index_or};
ghost use Rattle.instrument.specs.declared.heat.HeatFault.TheVariants.{NoMemory};

use crate::granules::{are_few, granules_of, is_touched};
use places::{Piece, Pieces};
use std::alloc::{AllocError, AllocFailed, Global};
use thiserror::Error;

/// Why no counts by granule were made.
#[derive(Clone, Copy, Debug, PartialEq, Eq, Error)]
pub enum HeatFault {
    /// There are more than 2^24 granules.
    #[error("there are more than 2^24 granules")]
    TooBig,
    #[error("out of memory")]
    NoMemory,
}

impl From<AllocError> for HeatFault {
    ghost from_gives = { λ _ e. e ≡ NoMemory };

    fn from(_e: AllocError) -> HeatFault {
        HeatFault::NoMemory
    }
}

impl<T: Drop> From<AllocFailed<T>> for HeatFault {
    ghost from_gives = { λ _ e. e ≡ NoMemory };

    fn from(_e: AllocFailed<T>) -> HeatFault {
        HeatFault::NoMemory
    }
}

/// How often each granule of the bytes of some blobs was accessed. A count stands still at the end of its type.
#[derive(Drop)]
pub struct Heat {
    granule: u32,
    blobs: Vec<Vec<u64>>,
    ghost some: { 1 ≤ granule },
}

impl Heat {
    ghost use Rattle.instrument.specs.Counters.{heat_counts, no_heat, granules_in, heated_by, heated_times, IsCountedPiece};
    ghost use Rattle.instrument.specs.Inner.Touching.{heated_besides, warmed_at};

    /// Counts of the granules of blobs of so many bytes, each 0; a granule has `granule` bytes, the last of a blob perhaps fewer. `TooBig`
    /// comes exactly where there are more than 2^24.
    pub fn new(alloc: Global, granule: u32, blob_bytes: &[u64]) -> Result<Heat, HeatFault>
        requires { 1 ≤ granule }
        ensures zero { IfOk result (λ heat. heat_counts heat ≡ no_heat granule blob_bytes.now) }
        ensures few { OnOk result (granules_in granule blob_bytes.now ≤ 2 ^ 24) }
        ensures too_big { IsErrOf result HeatFault.TooBig → 2 ^ 24 < granules_in granule blob_bytes.now }
    {
        if !are_few(granule, blob_bytes) {
            return Err(HeatFault::TooBig);
        }
        let mut blobs = Vec::new(alloc);
        for bytes in blob_bytes {
            let granules = bytes.div_ceil(u64::from(granule));
            blobs.push(vec![in alloc; 0u64; granules as usize]?)?;
        }
        Ok(Heat { granule, blobs })
    }

    /// Counts one access to all of these pieces: one more in each granule that holds a byte that holds a bit of one, once for all.
    pub fn touch(&mut self, pieces: &Pieces)
        requires { All (IsCountedPiece (heat_counts self.old)) pieces.now.items }
        ensures { heat_counts self.new ≡ heated_by pieces.now.items (heat_counts self.old) }
    {
        self.touch_times(pieces, 1);
    }

    /// Counts so many accesses to all of these pieces.
    pub fn touch_times(&mut self, pieces: &Pieces, times: u64)
        requires { All (IsCountedPiece (heat_counts self.old)) pieces.now.items }
        ensures { heat_counts self.new ≡ heated_times times pieces.now.items (heat_counts self.old) }
    {
        for at in 0..pieces.len() {
            let items = pieces.as_slice();
            self.touch_piece(&items[at], &items[..at], times);
        }
    }

    // Counts accesses to a piece, but for the granules that earlier pieces touch.
    fn touch_piece(&mut self, piece: &Piece, earlier: &[Piece], times: u64)
        requires { IsCountedPiece (heat_counts self.old) piece.now }
        ensures { heat_counts self.new ≡ heated_besides times earlier.now piece.now (heat_counts self.old) }
    {
        let (first, past) = granules_of(piece, self.granule);
        for number in first..past {
            if !is_touched(earlier, self.granule, piece.blob, number) {
                self.warm(piece.blob, number, times);
            }
        }
    }

    // So many more in a granule.
    fn warm(&mut self, blob: usize, number: u64, times: u64)
        requires blob_in { blob < length (heat_counts self.old).blobs }
        requires granule_in { number < length (slice_index_or (heat_counts self.old).blobs blob []) }
        ensures { heat_counts self.new ≡ warmed_at times blob number (heat_counts self.old) }
    {
        let counts = &mut self.blobs[blob];
        counts[number as usize] = counts[number as usize].saturating_add(times);
    }

    /// The granules of a blob.
    pub fn granules(&self, blob: usize) -> u64
        requires { blob < length (heat_counts self.now).blobs }
        ensures { result ≡ length (slice_index_or (heat_counts self.now).blobs blob []) }
    {
        self.counts_of(blob).len() as u64
    }

    /// The accesses to a granule of a blob.
    pub fn heat_at(&self, blob: usize, granule: u64) -> u64
        requires blob_in { blob < length (heat_counts self.now).blobs }
        requires granule_in { granule < length (slice_index_or (heat_counts self.now).blobs blob []) }
        ensures { result ≡ slice_index (slice_index_or (heat_counts self.now).blobs blob []) granule }
    {
        self.counts_of(blob)[granule as usize]
    }

    /// The number of blobs.
    pub(crate) fn blob_count(&self) -> usize
        ensures { result ≡ length (heat_counts self.now).blobs }
    {
        self.blobs.len()
    }

    /// The accesses to each granule of a blob.
    pub(crate) fn counts_of(&self, blob: usize) -> &[u64]
        requires { blob < length (heat_counts self.now).blobs }
        ensures { result.now ≡ slice_index_or (heat_counts self.now).blobs blob [] }
    {
        self.blobs[blob].as_slice()
    }
}
