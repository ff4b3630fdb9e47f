// What is lent to calls: pages, row lists and stores.

// Pages, row lists, reply rooms and lists of spans have no more.
pub const CELLS: usize = 4000;

// Stores, and rooms for bytes.
pub const BYTES: usize = 16384;

pub type List = Front<u16, CELLS>;

pub type Store = Front<u8, BYTES>;

// The front of a buffer.
#[derive(Clone, Copy)]
pub struct Front<T, const N: usize> {
    all: [T; N],
    len: usize,
}

impl<T: Copy + Default, const N: usize> Front<T, N> {
    // All 0.
    pub fn new(len: usize) -> Self {
        Front {
            all: [T::default(); N],
            len,
        }
    }

    pub fn as_slice(&self) -> &[T] {
        &self.all[..self.len.min(N)]
    }

    // That the length lies within the buffer is no ghost field, since a part of a struct that has one is not lent as `&mut`.
    pub fn as_mut_slice(&mut self) -> &mut [T] {
        &mut self.all[..self.len.min(N)]
    }

    // All 0 again, with a new length.
    pub fn reset(&mut self, len: usize) {
        self.len = len;
        // `fill` clones, and of a type parameter nothing says that its clone cannot fail
        for x in self.as_mut_slice() {
            *x = T::default();
        }
    }

    // What another list holds.
    pub fn take_over(&mut self, list: &[T]) {
        let n = list.len().min(N);
        self.all[..n].copy_from_slice(&list[..n]);
        self.len = n;
    }

    // `count` values from `first` on, if it has them.
    pub fn put(&mut self, first: usize, count: usize, value: T) -> Option<()> {
        let list = self.as_mut_slice();
        if list.len() < first || list.len() - first < count {
            return None;
        }
        for x in list[first..first + count].iter_mut() {
            *x = value;
        }
        Some(())
    }
}
