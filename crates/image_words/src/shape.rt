//! The shape of a signal, which says where its bits are, and its raw value by a shift and a mask of whole
//! bytes.

ghost use Rattle.std.specs.Prelude.{◌≡◌, ◌≤◌, ◌<◌, ◌+◌, ◌-◌, ◌*◌, ◌/◌, ◌%◌, ◌^◌, ◌&&◌, length, IfSome, nat_le};
ghost use Rattle.bench_model.specs.declared.database.Signal.{Signal};
ghost use Rattle.exact_scale.specs.Limits.{IsRawValue};
ghost use Rattle.bench_model.specs.Limits.{most_bits, last_start};
ghost use Rattle.bench_model.specs.Raw.{raw_value};
ghost use Rattle.bench_model.specs.Shifts.{end_of, shifted_bits, signed_number as number_of};
ghost use Rattle.image_words.specs.Image.{sign_weight};
ghost use Rattle.image_words.specs.Reading.{shape_of, IsDecodableShape, HasShape};

use crate::joining::{big_endian, little_endian};
use crate::layout::{ORDER_WEIGHT, SIGN_WEIGHT, SIZE_SPAN, SIZE_WEIGHT};
use bench_model::{Order, raw_by_shift};

/// Where a signal's bits are in a frame, and whether they are a signed number.
#[derive(Clone, Copy)]
pub(crate) struct Shape {
    start: u32,
    size: u32,
    order: Order,
    signed: bool,
}

impl Shape {
    /// The shape that a word of a signal's row says.
    pub(crate) fn of(word: u64) -> Shape
        requires { word < 2 * sign_weight }
        ensures { result ≡ shape_of word }
    {
        let order = if word / ORDER_WEIGHT % 2 == 1 {
            Order::Motorola
        } else {
            Order::Intel
        };
        Shape {
            start: (word % SIZE_WEIGHT) as u32,
            size: (word / SIZE_WEIGHT % SIZE_SPAN) as u32,
            order,
            signed: word / SIGN_WEIGHT == 1,
        }
    }

    /// The place after the last bit, counted in the order in which the bits follow one another.
    fn end(self) -> u32
        requires { IsDecodableShape self }
        ensures value { result ≡ end_of self.order self.start self.size }
        ensures start { self.start / 8 * 8 < result }
        ensures bound { result ≤ self.start + 72 }
    {
        match self.order {
            Order::Intel => self.start + self.size,
            Order::Motorola => self.start / 8 * 8 + (7 - self.start % 8) + self.size,
        }
    }

    /// The bits among the bytes that they touch.
    fn bits(self, touched: &[u8]) -> u64
        requires shape { IsDecodableShape self }
        requires within { end_of self.order (self.start % 8) self.size ≤ 8 * length touched.now }
        requires few { length touched.now ≤ 9 }
        ensures bits { result ≡ shifted_bits self.order (self.start % 8) self.size touched.now }
        ensures below { result < 2 ^ self.size }
    {
        let first = self.start % 8;
        let mask = (1u128 << self.size) - 1;
        let number = match self.order {
            Order::Intel => little_endian(touched) >> first,
            Order::Motorola => {
                big_endian(touched) >> (8 * touched.len() as u32 - (7 - first + self.size))
            }
        };
        (number & mask) as u64
    }

    /// These bits as a number, in two's complement where it is signed.
    fn number(self, bits: u64) -> i128
        requires shape { IsDecodableShape self }
        requires bits { bits < 2 ^ self.size }
        ensures value { result ≡ number_of self.signed self.size bits }
        ensures bound { IsRawValue result }
    {
        if self.signed && 1u64 << (self.size - 1) <= bits {
            i128::from(bits) - (1i128 << self.size)
        } else {
            i128::from(bits)
        }
    }

    /// The raw value of a signal of this shape; none where one of its bits lies past the bytes.
    pub(crate) fn raw(self, bytes: &[u8]) -> Option<i128>
        requires { IsDecodableShape self }
        ensures value { (s : Signal) → HasShape self s → result ≡ raw_value s bytes.now }
        ensures bound { IfSome result IsRawValue }
    {
        raw_by_shift();
        let first = (self.start / 8) as usize;
        let past = self.end().div_ceil(8) as usize;
        if past > bytes.len() {
            return None;
        }
        let bits = self.bits(&bytes[first..past]);
        Some(self.number(bits))
    }
}
