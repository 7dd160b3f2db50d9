//! Laws about the definition of raw values. They have no code.

ghost use Rattle.std.specs.Prelude.{◌≡◌, ◌==◌, ℕ, ◌+◌, ◌-◌, ◌*◌, ◌/◌, ◌%◌, ◌^◌, ◌<◌, ◌≤◌, Bool, List, [], ◌∷◌, ◌++◌, length, take, drop, map, reverse, slice_index, slice_range, nat_le, nat_lt, IfSome};
ghost use Rattle.exact_scale.specs.Limits.{IsRawValue};
ghost use Rattle.bench_model.specs.declared.database.Order.{Order};
ghost use Rattle.bench_model.specs.declared.database.Order.TheVariants.{Intel, Motorola};
ghost use Rattle.bench_model.specs.declared.database.Signal.{Signal};
ghost use Rattle.bench_model.specs.Raw.{bit, first_place, places, weight, is_within, number_of, raw_value};
ghost use Rattle.bench_model.specs.Weights.{intel_sum, upwards, as_read};
ghost use Rattle.bench_model.specs.Shifts.{AreBytes, little_endian, big_endian, end_of, shifted_bits, signed_number, shifted_value};

/// The bits of a little-endian signal are at `start`, `start + 1` and so on, and its number is the sum of their
/// weights: the bit at `start + t` weighs `2^t`.
pub fn intel_weights()
    ensures places { (start n : ℕ) → reverse (places Intel start n) ≡ upwards start n }
    ensures weights { (bytes : List ℕ) (start n : ℕ) → weight (map (bit bytes) (places Intel start n)) ≡ intel_sum bytes start n }
{}

/// The bits of a big-endian signal follow one another as the bytes are read, each from its most significant bit on:
/// counted so, the signal's most significant bit and the places after it.
pub fn motorola_places()
    ensures { (start n : ℕ) → places Motorola start n ≡ map as_read (upwards (as_read start) n) }
{}

/// The bytes as one number, byte by byte as they are read.
pub fn bytes_as_number()
    ensures prefix { (bytes : List ℕ) (n : ℕ) → AreBytes bytes → AreBytes (take n bytes) }
    ensures rest { (bytes : List ℕ) (n : ℕ) → AreBytes bytes → AreBytes (drop n bytes) }
    ensures below { (bytes : List ℕ) → AreBytes bytes → little_endian bytes < 256 ^ length bytes }
    ensures big_below { (bytes : List ℕ) → AreBytes bytes → big_endian bytes < 256 ^ length bytes }
    // one byte more: as A0 0F is 160 + 15 * 256 in the one order and 160 * 256 + 15 in the other
    ensures little_next { (bytes : List ℕ) (b : ℕ)
        → little_endian (bytes ++ b ∷ []) ≡ little_endian bytes + b * 256 ^ length bytes }
    ensures big_next { (bytes : List ℕ) (b : ℕ) → big_endian (bytes ++ b ∷ []) ≡ big_endian bytes * 256 + b }
    // one byte more in front
    ensures little_rest { (bytes : List ℕ) (i : ℕ) → i < length bytes
        → little_endian (drop i bytes) ≡ slice_index bytes i + 256 * little_endian (drop (i + 1) bytes) }
{}

/// The bits of a signal, one by one, are a shift and a mask of the bytes as one number.
pub fn bits_by_shift()
    // as 0|16 of A0 0F is 4000
    ensures little { (bytes : List ℕ) (start size : ℕ) → AreBytes bytes
        → weight (map (bit bytes) (places Intel start size)) ≡ little_endian bytes / 2 ^ start % 2 ^ size }
    // shifted by the bits after the signal's last one: as 7|16 of 12 34 is 4660
    ensures big { (bytes : List ℕ) (start size : ℕ) → AreBytes bytes → as_read start + size ≤ 8 * length bytes
        → weight (map (bit bytes) (places Motorola start size))
        ≡ big_endian bytes / 2 ^ (8 * length bytes - (as_read start + size)) % 2 ^ size }
    // a part of the bytes that the signal lies in suffices; there it starts so many whole bytes earlier
    ensures window { (order : Order) (bytes : List ℕ) (from to start size : ℕ) → AreBytes bytes
        → 8 * from ≤ start → end_of order start size ≤ 8 * to → to ≤ length bytes
        → shifted_bits order (start - 8 * from) size (slice_range bytes from to)
        ≡ shifted_bits order start size bytes }
    // the bytes that at most 64 bits touch are at most nine: as 7|64 of nine bytes in Intel order
    ensures nine { (order : Order) (start size : ℕ) → size ≤ 64
        → (end_of order start size + 7) / 8 - start / 8 ≤ 9 }
    // all places are within the bytes exactly where the signal ends within them
    ensures within { (order : Order) (bytes : List ℕ) (start size : ℕ) → 1 ≤ size
        → is_within bytes (places order start size) ≡ nat_le (end_of order start size) (8 * length bytes) }
    // that is, where the byte of its last bit is there
    ensures last { (order : Order) (bytes : List ℕ) (start size : ℕ) → 1 ≤ size
        → is_within bytes (places order start size)
        ≡ nat_lt ((end_of order start size - 1) / 8) (length bytes) }
    // the bit of greatest weight is set exactly where the number is at least that weight
    ensures sign { (order : Order) (bytes : List ℕ) (start size : ℕ) → 1 ≤ size
        → (bit bytes (first_place order start size) == 1)
        ≡ nat_le (2 ^ (size - 1)) (weight (map (bit bytes) (places order start size))) }
    // so a signed number of these bits is two's complement: as 3|12 in Motorola order of 0F FE is -2
    ensures complement { (order : Order) (bytes : List ℕ) (signed : Bool) (start size : ℕ) → 1 ≤ size
        → let bits = weight (map (bit bytes) (places order start size)) in
        number_of signed size (bit bytes (first_place order start size)) bits
        ≡ signed_number signed size bits }
{}

/// The raw value of a signal by a shift and a mask: a faster decoder computes one of these.
pub fn raw_by_shift()
    ensures whole { (s : Signal) (bytes : List ℕ) → 1 ≤ s.size → AreBytes bytes
        → raw_value s bytes ≡ shifted_value s bytes }
    ensures absent { (s : Signal) (bytes : List ℕ) → 1 ≤ s.size
        → 8 * length bytes < end_of s.order s.start s.size → raw_value s bytes ≡ None }
    // from the bytes that the signal touches, of which there are at most nine
    ensures present { (s : Signal) (bytes : List ℕ) → 1 ≤ s.size → AreBytes bytes
        → end_of s.order s.start s.size ≤ 8 * length bytes
        → let touched = slice_range bytes (s.start / 8) ((end_of s.order s.start s.size + 7) / 8) in
        let bits = shifted_bits s.order (s.start % 8) s.size touched in
        raw_value s bytes ≡ Some (signed_number s.signed s.size bits) }
    ensures range { (s : Signal) (bytes : List ℕ) → 1 ≤ s.size → s.size ≤ 64
        → IfSome (raw_value s bytes) IsRawValue }
{}
