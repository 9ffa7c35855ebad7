// Filters of repositories.
ghost use Rattle.std.specs.Prelude.{◌≡◌, ◌<◌, ◌≤◌, ◌*◌, ◌%◌, ◌==◌, ◌||◌, ℕ, [], ◌∷◌};
ghost use Rattle.std.specs.Prelude.{IfOk, length, replicate};
ghost use Rattle.std.specs.Int.{from_be_bytes, w16};
ghost use Rattle.gossip_wire.specs.Fields.{IsFilterSize};
ghost use Rattle.announcements.specs.Filters.{Adds, Sets, bits_of, filter_has};
ghost use Rattle.announcements.specs.Filters.{has_bit, size_bytes};

use rad_base::{NoMemory, Rid};
use std::alloc::Global;
use std::marker::Model;

/// How many bytes a filter has.
#[derive(Clone, Copy, Debug, PartialEq, Eq)]
pub enum FilterSize {
    /// 1,024 bytes.
    Small,
    /// 4,096 bytes.
    Middle,
    /// 16,384 bytes.
    Large,
}

/// A set of repositories of 1,024, 4,096 or 16,384 bytes, which may have more than were added: a
/// Bloom filter. A repository has seven bits in it, which are the seven two-byte numbers at the
/// front of its name, big-endian, each modulo the count of the filter's bits. Bit `i` is that of
/// weight `2^(i mod 8)` in byte `i / 8`. Contracts see it as its bytes.
#[derive(Debug, Drop)]
pub struct Filter {
    bytes: Vec<u8>,
}

impl Model for Filter {
    ghost use Rattle.std.specs.Prelude.{List, ℕ, length, IsTrue};
    ghost use Rattle.announcements.specs.Filters.{is_filter_size};

    ghost Value = { List ℕ };

    ghost view = { λ filter. filter.bytes.items };

    ghost invariant = { λ filter. IsTrue (is_filter_size (length filter.bytes.items)) };
}

// The two-byte number at the front of a name or further on, modulo the count of a filter's bits.
fn bit(high: u8, low: u8, count: usize) -> usize
    requires { 0 < count }
    ensures { result ≡ from_be_bytes w16 (high ∷ low ∷ []) % count }
{
    usize::from(u16::from_be_bytes([high, low])) % count
}

// The bits of a repository in a filter of so many bytes.
fn bits_of(size: usize, rid: &Rid) -> [usize; 7]
    requires some { 0 < size }
    requires few { size ≤ 16384 }
    ensures { result ≡ bits_of size rid.now }
{
    let name = &rid.0.0;
    let count = 8 * size;
    [
        bit(name[0], name[1], count),
        bit(name[2], name[3], count),
        bit(name[4], name[5], count),
        bit(name[6], name[7], count),
        bit(name[8], name[9], count),
        bit(name[10], name[11], count),
        bit(name[12], name[13], count),
    ]
}

// Whether a bit is set. None is behind the last byte.
fn has_bit(bytes: &[u8], i: usize) -> bool
    ensures { result ≡ has_bit bytes.now i }
{
    match bytes.get(i / 8) {
        Some(byte) => byte >> (i % 8) & 1 == 1,
        None => false,
    }
}

// Sets a bit. None is behind the last byte.
fn set_bit(bytes: &mut [u8], i: usize)
    ensures size { length bytes.new ≡ length bytes.old }
    ensures bits { (j : ℕ) → j < 8 * length bytes.old
        → has_bit bytes.new j ≡ (has_bit bytes.old j || (j == i)) }
{
    if i / 8 < bytes.len() {
        bytes[i / 8] |= 1 << (i % 8);
    }
}

// Sets some bits.
fn set_bits(bytes: &mut [u8], bits: &[usize])
    ensures { Sets bits.now bytes.old bytes.new }
{
    for i in bits {
        set_bit(bytes, *i);
    }
}

impl Filter {
    /// The filter that has every repository: 1,024 bytes `ff`.
    pub fn full(alloc: Global) -> Result<Filter, NoMemory>
        ensures { IfOk result (λ filter. filter ≡ replicate 1024 255) }
    {
        Ok(Filter {
            bytes: vec![in alloc; 0xff; 1024]?,
        })
    }

    /// A filter of this size that has no repository.
    pub fn empty(alloc: Global, size: FilterSize) -> Result<Filter, NoMemory>
        ensures { IfOk result (λ filter. filter ≡ replicate (size_bytes size) 0) }
    {
        let count = match size {
            FilterSize::Small => 1024,
            FilterSize::Middle => 4096,
            FilterSize::Large => 16384,
        };
        Ok(Filter {
            bytes: vec![in alloc; 0; count]?,
        })
    }

    /// The filter that has these bytes: 1,024, 4,096 or 16,384.
    pub fn of(alloc: Global, bytes: &[u8]) -> Result<Filter, NoMemory>
        requires { IsFilterSize (length bytes.now) }
        ensures { IfOk result (λ filter. filter ≡ bytes.now) }
    {
        Ok(Filter {
            bytes: bytes.to_vec(alloc)?,
        })
    }

    /// The bytes.
    pub fn as_bytes(&self) -> &[u8]
        ensures bytes { result.now ≡ self.now }
        ensures size { IsFilterSize (length self.now) }
    {
        &self.bytes
    }

    /// Adds a repository.
    pub fn add(&mut self, rid: &Rid)
        ensures { Adds rid.now self.old self.new }
    {
        let bits = bits_of(self.bytes.len(), rid);
        set_bits(&mut self.bytes, &bits);
    }

    /// Whether the filter has a repository.
    pub fn has(&self, rid: &Rid) -> bool
        ensures { result ≡ filter_has self.now rid.now }
    {
        let bits = bits_of(self.bytes.len(), rid);
        bits.iter().all(|i| has_bit(&self.bytes, *i))
    }
}
