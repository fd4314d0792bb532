//! Numbers of places, as far as 32 bits can name them.

ghost use Rattle.std.specs.Prelude.{◌≡◌, ◌+◌};
ghost use Rattle.gufi_base.specs.Basics.{capped_number};

/// A number, or the greatest of 32 bits where it is greater.
pub fn capped_u32(number: usize) -> u32
    ensures { result ≡ capped_number number }
{
    match u32::try_from(number) {
        Ok(number) => number,
        Err(_) => u32::MAX,
    }
}

/// The number of what stands at a place, counted from 1.
pub fn number_at(place: usize) -> u32
    ensures { result ≡ capped_number (place + 1) }
{
    capped_u32(place).saturating_add(1)
}
