// The masks of events of a run: four bytes a step, the lowest first.
use super::stop::Stuck;
use input::fill;
use std::io::Read;

// The masks that came, and how many bytes of one that is not whole.
#[derive(Clone, Copy, Debug, PartialEq, Eq)]
pub struct Came<'a> {
    pub masks: &'a [u32],
    pub rest: usize,
}

impl Came<'_> {
    // The mask of a step; behind the last there are empty ones.
    pub fn mask(&self, k: usize) -> u32 {
        self.masks.get(k).copied().unwrap_or(0)
    }

    // Whether so many steps, of so many bytes each, have their masks.
    pub fn check(&self, whole: usize, bytes: usize) -> Result<(), Stuck> {
        if self.masks.len() < whole {
            return Err(Stuck::Short {
                bytes,
                mask: self.rest,
            });
        }
        Ok(())
    }
}

// The masks of the next n steps, as many as there is place for, 4,000 at most. Without a file of events they are empty.
pub fn take_masks<'a, S: Read>(events: &mut Option<S>, masks: &'a mut [u32], n: usize) -> Came<'a> {
    let n = n.min(masks.len());
    let masks = &mut masks[..n];
    match events {
        None => Came { masks, rest: 0 },
        Some(from) => read_masks(from, masks),
    }
}

fn read_masks<'a, S: Read>(from: &mut S, masks: &'a mut [u32]) -> Came<'a> {
    let mut raw = [0u8; 16000];
    let n = masks.len().min(4000);
    let f = fill(from, &mut raw[..4 * n]);
    let (fours, rest) = raw[..f.count].as_chunks::<4>();
    for (mask, four) in masks.iter_mut().zip(fours) {
        *mask = u32::from_le_bytes(*four);
    }
    Came {
        masks: &masks[..fours.len()],
        rest: rest.len(),
    }
}

// Whether bytes are left behind the last mask that was taken.
pub fn masks_left<S: Read>(events: &mut Option<S>) -> bool {
    let mut one = [0u8; 1];
    match events {
        None => false,
        Some(from) => 0 < fill(from, &mut one).count,
    }
}
