// How far apart numbers lie.

/// The least and the greatest of some numbers, and how many they are.
#[derive(Clone, Copy)]
pub struct Extent {
    least: u32,
    greatest: u32,
    count: usize,
}

impl Extent {
    /// That of no numbers.
    pub fn new() -> Extent {
        Extent {
            least: u32::MAX,
            greatest: 0,
            count: 0,
        }
    }

    /// Adds a number.
    pub fn add(&mut self, number: u32) {
        self.least = self.least.min(number);
        self.greatest = self.greatest.max(number);
        self.count = self.count.saturating_add(1);
    }

    /// The number from which on a list of them begins.
    pub fn first(&self) -> u32 {
        self.least
    }

    /// How many places a list of them has: one for each number up to the greatest, but no more than so many for each that was added.
    pub fn places(&self, each: usize) -> usize {
        let apart = self.greatest.saturating_sub(self.least) as usize;
        apart.saturating_add(1).min(self.count.saturating_mul(each))
    }
}
