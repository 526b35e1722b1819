//! Classes of bytes: two bytes are of one class where no border stands between them.

ghost use Rattle.std.specs.Prelude.{◌≡◌, ℕ, ◌<◌, ◌≤◌, ◌||◌, ◌↔◌, Bool, List, length};
ghost use Rattle.aho_table.specs.Alphabet.{is_border, is_edge, no_borders, class_of, class_count, AreOfOneClass, IsNotParted, HasItsEdges, IsAlone};

use std::marker::Model;

/// Where borders between bytes stand. A border at a byte stands between this byte and the next one.
#[derive(Drop)]
pub struct ByteClassSet {
    borders: [bool; 255],
}

impl Model for ByteClassSet {
    ghost use Rattle.std.specs.Prelude.{List, Bool};

    ghost Value = { List Bool };

    ghost view = { λ set. set.borders };
}

impl ByteClassSet {
    /// No border.
    pub fn empty() -> ByteClassSet
        ensures empty { result ≡ no_borders }
    {
        ByteClassSet {
            borders: [false; 255],
        }
    }

    /// Sets a border below the first byte of a range and one above its last. There is none below byte 0 nor above byte 255.
    pub fn set_range(&mut self, lo: u8, hi: u8)
        requires ordered { lo ≤ hi }
        ensures borders { (at : ℕ) → at < 255
            → is_border self.new at ≡ (is_border self.old at || is_edge lo hi at) }
        ensures sized { length self.new ≡ 255 }
    {
        if lo > 0 {
            self.borders[lo as usize - 1] = true;
        }
        if hi < 255 {
            self.borders[hi as usize] = true;
        }
    }

    /// The classes that these borders make.
    pub fn byte_classes(&self) -> ByteClasses
        ensures borders { result ≡ self.now }
        ensures sized { length result ≡ 255 }
    {
        let mut classes = [0u8; 256];
        let mut class = 0;
        for at in 0..255 {
            if self.borders[at] {
                class += 1;
            }
            classes[at + 1] = class;
        }
        ByteClasses { classes }
    }
}

/// A class for each byte, numbered from 0 on in the bytes' order.
///
/// It is seen as the borders between the classes.
#[derive(Drop)]
pub struct ByteClasses {
    classes: [u8; 256],
}

impl Model for ByteClasses {
    ghost use Rattle.std.specs.Prelude.{List, Bool};
    ghost use Rattle.aho_table.specs.Inside.{borders_of, AreClasses};

    ghost Value = { List Bool };

    ghost view = { λ c. borders_of c.classes };

    ghost invariant = { λ c. AreClasses c.classes };
}

impl ByteClasses {
    /// The class of a byte: how many borders stand below it.
    pub fn get(&self, byte: u8) -> u8
        ensures class { result ≡ class_of self.now byte }
        ensures within { result < class_count self.now }
    {
        self.classes[byte as usize]
    }

    /// How many classes there are: one more than there are borders.
    pub fn alphabet_len(&self) -> usize
        ensures len { result ≡ class_count self.now }
        ensures bound { result ≤ 256 }
    {
        self.classes[255] as usize + 1
    }

    /// The same classes once more.
    pub fn copy(&self) -> ByteClasses
        ensures same { result ≡ self.now }
    {
        ByteClasses {
            classes: self.classes,
        }
    }
}

/// What is true of classes, for a proof to cite. The call does nothing.
pub fn laws_of_classes()
    ensures one_class { (borders : List Bool) (low high : ℕ) → low ≤ high
        → AreOfOneClass borders low high ↔ IsNotParted borders low high }
    ensures alone { (borders : List Bool) (byte : ℕ) → length borders ≡ 255 → byte < 256
        → HasItsEdges borders byte → IsAlone borders byte }
{}
