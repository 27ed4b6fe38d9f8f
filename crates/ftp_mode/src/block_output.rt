// What is decided goes into rooms: the octets of a written block, and those beside it (RFC 959, section 3.4.2).
ghost use Rattle.std.specs.Prelude.{◌≡◌, ◌+◌, ◌/◌, ◌%◌, ◌<◌, ◌≤◌, ◌⊎◌, ◌++◌, [], length, take, drop, slice_index, ◌-◌, true};
ghost use Rattle.ftp_mode.specs.Block.{block_text};
ghost use Rattle.ftp_mode.specs.Framing.{writing, owed_block, owed_octets, is_open, IsClear};

use crate::framer::{BLOCK_LIMIT, Framer, HEADER, Stage};

impl Framer {
    /// An octet of the written block's header.
    fn header_octet(&self, descriptor: u8, place: usize) -> u8
        requires { place < 3 }
        ensures { result ≡ slice_index (block_text descriptor self.now.block.items) place }
    {
        let len = self.block.len();
        match place {
            0 => descriptor,
            1 => (len / 256) as u8,
            _ => (len % 256) as u8,
        }
    }

    /// Copies the written block from a place on into the room, and says how far it came in both.
    fn copy(&self, descriptor: u8, place: usize, room: &mut [u8], at: usize) -> (usize, usize)
        requires { at ≤ length room.old }
        ensures within { (at ≤ result.0) × (result.0 ≤ length room.old) }
        ensures copied { take result.0 room.new ++ drop result.1 (block_text descriptor self.now.block.items)
            ≡ take at room.old ++ drop place (block_text descriptor self.now.block.items) }
        ensures all { (length self.now.block.items + 3 ≤ result.1) ⊎ (result.0 ≡ length room.old) }
    {
        let (made, next) = self.copy_header(descriptor, place, room, at);
        if next < HEADER {
            return (made, next);
        }
        let count = self.copy_octets(next - HEADER, room, made);
        (made + count, next + count)
    }

    /// Copies what is left of the written block's header.
    fn copy_header(
        &self,
        descriptor: u8,
        place: usize,
        room: &mut [u8],
        at: usize,
    ) -> (usize, usize)
        requires { at ≤ length room.old }
        ensures within { (at ≤ result.0) × (result.0 ≤ length room.old) }
        ensures copied { take result.0 room.new ++ drop result.1 (block_text descriptor self.now.block.items)
            ≡ take at room.old ++ drop place (block_text descriptor self.now.block.items) }
        ensures all { (3 ≤ result.1) ⊎ (result.0 ≡ length room.old) }
    {
        let mut made = at;
        let mut next = place;
        while made < room.len() && next < HEADER {
            room[made] = self.header_octet(descriptor, next);
            made += 1;
            next += 1;
        }
        (made, next)
    }

    /// Copies the written block's octets from the first of these on, and says how many.
    fn copy_octets(&self, first: usize, room: &mut [u8], at: usize) -> usize
        requires { at ≤ length room.old }
        ensures within { at + result ≤ length room.old }
        ensures copied { take (at + result) room.new ++ drop (first + result) self.now.block.items
            ≡ take at room.old ++ drop first self.now.block.items }
        ensures all { (length self.now.block.items ≤ first + result) ⊎ (at + result ≡ length room.old) }
        ensures few { 0 < result → first + result ≤ BLOCK_LIMIT }
    {
        let (_, rest) = self.block.as_slice().split_at(first.min(self.block.len()));
        let count = rest.len().min(room.len() - at);
        let (front, _) = rest.split_at(count);
        copy_to(room, at, front);
        count
    }

    /// Moves a decided block to the room from `at` on.
    fn pour_block(&mut self, room: &mut [u8], at: usize) -> usize
        requires { at ≤ length room.old }
        ensures within { (at ≤ result) × (result ≤ length room.old) }
        ensures text { take result room.new ++ owed_block self.new.stage self.new.block.items
            ≡ take at room.old ++ owed_block self.old.stage self.old.block.items }
        ensures state { writing self.new ≡ writing self.old }
        ensures owes { self.new.owed.items ≡ self.old.owed.items }
        ensures all { (is_open self.new.stage ≡ true) ⊎ (result ≡ length room.old) }
    {
        match self.stage {
            Stage::Leaving(descriptor, place) => {
                let (made, next) = self.copy(descriptor, place, room, at);
                if next >= self.block.len() + 3 {
                    self.block.clear();
                    self.stage = Stage::Filling;
                } else {
                    self.stage = Stage::Leaving(descriptor, next);
                }
                made
            }
            Stage::Last(descriptor, place) => {
                let (made, next) = self.copy(descriptor, place, room, at);
                if next >= self.block.len() + 3 {
                    self.stage = Stage::Closed;
                } else {
                    self.stage = Stage::Last(descriptor, next);
                }
                made
            }
            _ => at,
        }
    }

    /// Moves the octets that are decided beside a block to the room from `at` on.
    fn pour_owed(&mut self, room: &mut [u8], at: usize) -> usize
        requires { at ≤ length room.old }
        ensures within { (at ≤ result) × (result ≤ length room.old) }
        ensures text { take result room.new ++ self.new.owed.items ≡ take at room.old ++ self.old.owed.items }
        ensures all { (self.new.owed.items ≡ []) ⊎ (result ≡ length room.old) }
        ensures stage { self.new.stage ≡ self.old.stage }
        ensures block { self.new.block.items ≡ self.old.block.items }
        ensures marks { self.new.marks ≡ self.old.marks }
    {
        let len = self.owed.len();
        if len <= room.len() - at {
            copy_to(room, at, self.owed.as_slice());
            self.owed.clear();
            return at + len;
        }
        let mut made = at;
        while made < room.len() && !self.owed.is_empty() {
            room[made] = self.owed.remove(0);
            made += 1;
        }
        made
    }

    /// Moves what is decided to the room from `at` on.
    pub(crate) fn pour(&mut self, room: &mut [u8], at: usize) -> usize
        requires { at ≤ length room.old }
        ensures within { (at ≤ result) × (result ≤ length room.old) }
        ensures text { take result room.new ++ owed_octets self.new ≡ take at room.old ++ owed_octets self.old }
        ensures state { writing self.new ≡ writing self.old }
        ensures all { IsClear self.new ⊎ (result ≡ length room.old) }
        ensures some { at < length room.old → 0 < length (owed_octets self.old) → at < result }
    {
        if self.is_clear() {
            return at;
        }
        self.pour_some(room, at)
    }

    /// The same, where something is decided or nothing.
    fn pour_some(&mut self, room: &mut [u8], at: usize) -> usize
        requires { at ≤ length room.old }
        ensures within { (at ≤ result) × (result ≤ length room.old) }
        ensures text { take result room.new ++ owed_octets self.new ≡ take at room.old ++ owed_octets self.old }
        ensures state { writing self.new ≡ writing self.old }
        ensures all { IsClear self.new ⊎ (result ≡ length room.old) }
        ensures some { at < length room.old → 0 < length (owed_octets self.old) → at < result }
    {
        let made = self.pour_block(room, at);
        if !self.is_open() {
            return made;
        }
        self.pour_owed(room, made)
    }
}

/// Copies octets to the room from `at` on.
pub(crate) fn copy_to(room: &mut [u8], at: usize, octets: &[u8])
    requires { at + length octets.now ≤ length room.old }
    ensures { take (at + length octets.now) room.new ≡ take at room.old ++ octets.now }
{
    room[at..at + octets.len()].copy_from_slice(octets);
}
