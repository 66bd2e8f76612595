use crate::spelling::Room;
use packages::{Filled, read_package};
use refusals::Refusal;
use rows::{ConstraintRow, HoldingRow, PointRow};
use std::alloc::{AllocError, Global};
use writer::write_package;

/// The tables that a package is read into.
#[derive(Drop)]
pub(crate) struct Tables {
    constraints: Vec<ConstraintRow>,
    points: Vec<PointRow>,
    factors: Vec<i16>,
    holdings: Vec<HoldingRow>,
}

impl Tables {
    /// Tables of so many entries, all of them 0.
    pub(crate) fn new(heap: Global, room: Room) -> Result<Tables, AllocError> {
        Ok(Tables {
            constraints: vec![in heap; ConstraintRow::default(); room.constraints]?,
            points: vec![in heap; PointRow::default(); room.points]?,
            factors: vec![in heap; 0i16; room.factors]?,
            holdings: vec![in heap; HoldingRow::default(); room.holdings]?,
        })
    }

    /// Reads a package into the tables.
    pub(crate) fn read(&mut self, bytes: &[u8]) -> Result<Filled, Refusal> {
        read_package(
            bytes,
            self.constraints.as_mut_slice(),
            self.points.as_mut_slice(),
            self.factors.as_mut_slice(),
            self.holdings.as_mut_slice(),
        )
    }

    /// Writes the package of what was found into a buffer, and answers its length if it is not refused.
    fn write(&self, found: &Filled, out: &mut [u8]) -> Option<usize> {
        write_package(
            &found.day,
            self.constraints.as_slice().get(..found.constraints)?,
            self.points.as_slice().get(..found.points)?,
            self.factors.as_slice().get(..found.factors)?,
            self.holdings.as_slice().get(..found.holdings)?,
            out,
        )
        .ok()
    }

    /// Whether what is written of the tables is the package that they were read from.
    pub(crate) fn written_alike(
        &self,
        heap: Global,
        found: &Filled,
        bytes: &[u8],
    ) -> Result<bool, AllocError> {
        let mut out = vec![in heap; 0u8; bytes.len()]?;
        let written = self.write(found, out.as_mut_slice());
        Ok(written == Some(bytes.len()) && out.as_slice() == bytes)
    }
}
