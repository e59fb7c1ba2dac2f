//! The remainder of a check, moved by zeros after it.
ghost use Rattle.std.specs.Prelude.{◌≡◌, ◌+◌, ◌*◌, ◌/◌, ◌%◌, ◌^◌, ◌<◌, bit_xor};
ghost use Rattle.crc.specs.Division.{reduced};
ghost use Rattle.crc.specs.Products.{product};
ghost use Rattle.crc.specs.FileChecks.{divisor32, moved_octets};

use crate::Crc32;

impl Crc32 {
    /// Returns what so many octets of zeros leave after octets that left this. It takes at most
    /// some forty products for the octets of any file.
    pub(crate) fn moved(self, octets: u64, left: u32) -> u32
        ensures { result ≡ moved_octets self octets left }
    {
        let mut count = octets;
        let mut power = 256;
        let mut moved = left;
        while count > 0 {
            if count % 2 == 1 {
                moved = self.times(power, moved);
            }
            power = self.times(power, power);
            count /= 2;
        }
        moved
    }

    /// Returns the product of two polynomials, modulo the divisor.
    fn times(self, first: u32, second: u32) -> u32
        ensures { result ≡ product 32 (divisor32 self) 32 first second }
    {
        let mut place = 32u32;
        let mut product = 0;
        while place > 0 {
            place -= 1;
            product = self.with_coefficient(product, first, second, place);
        }
        product
    }

    /// Returns a product with one more coefficient of the second factor.
    #[inline(always)]
    fn with_coefficient(self, so_far: u32, first: u32, second: u32, place: u32) -> u32
        requires { place < 32 }
        ensures { result ≡ bit_xor (reduced 32 (divisor32 self) (2 * so_far))
            (second / 2 ^ place % 2 * first) }
    {
        let doubled = self.doubled(so_far);
        if (second >> place) % 2 == 1 {
            doubled ^ first
        } else {
            doubled
        }
    }

    /// Returns a polynomial times x, less the divisor if the divisor goes into it.
    #[inline(always)]
    fn doubled(self, left: u32) -> u32
        ensures { result ≡ reduced 32 (divisor32 self) (2 * left) }
    {
        let shifted = left << 1;
        if left >= 0x8000_0000 {
            shifted ^ self.divisor()
        } else {
            shifted
        }
    }
}
