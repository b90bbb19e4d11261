//! Addresses and places.
ghost use Rattle.std.specs.Prelude.{◌≡◌};
ghost use Rattle.memorymap.specs.Addresses.{AddressesAreSeen, WritesAreSeen, address_from, seen_at};
ghost use Rattle.memorymap.specs.Mappings.{AddressesAreSums};

/// The address of a place for a process that maps the words at a base: base + place, modulo 2^64.
pub fn address_from(base: u64, place: u64) -> u64
    ensures { result ≡ address_from base place }
{
    base.wrapping_add(place)
}

/// The place of an address for a process that maps the words at a base: address - base, modulo 2^64.
pub fn seen_at(base: u64, address: u64) -> u64
    ensures { result ≡ seen_at base address }
{
    address.wrapping_sub(base)
}

/// From each base, each place has an address of its own, and each address is a place's.
pub fn addresses_are_seen()
    ensures { AddressesAreSeen }
{}

/// What is written at a place is seen, from each base, at its address there and at no other. So chains and walks are
/// over the words as their thread's process sees them.
#[tactic(auto, using(crate::proofs::Processes::writes_seen))]
pub fn writes_are_seen()
    ensures { WritesAreSeen }
{}

/// A process that maps the words at a base has the word at a place at base + place, modulo 2^64. If the base is 0, that
/// is the place itself. Each next word is at the next address, and as far from its address in another process as their
/// bases are apart.
#[tactic(auto, using(crate::proofs::Mappings::sums))]
pub fn addresses_are_sums()
    ensures { AddressesAreSums }
{}
