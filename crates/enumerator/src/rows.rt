// The rows of the active sessions: the variant, then the start of each activity.

use plain::ACTS;

// An area that is written from the front. Past its end nothing is stored.
#[derive(Drop)]
pub struct Rows<'a> {
    area: &'a mut [u32],
    cells: usize,
}

impl<'a> Rows<'a> {
    pub fn new(area: &'a mut [u32]) -> Rows<'a> {
        Rows { area, cells: 0 }
    }

    // How many cells the rows take.
    pub fn cells(&self) -> usize {
        self.cells
    }

    fn put(&mut self, cell: u32) {
        if let Some(place) = self.area.get_mut(self.cells) {
            *place = cell;
        }
        self.cells = self.cells.saturating_add(1);
    }

    pub fn put_row(&mut self, variant: u32, starts: &[u32; ACTS], acts: usize) {
        self.put(variant);
        for start in starts.iter().take(acts) {
            self.put(*start);
        }
    }
}
