// Are rows of bits right: an input, and what is in the headers.
ghost use Rattle.std.specs.Prelude.{◌≡◌, map, vec_items};
ghost use Rattle.std.specs.List.{list_all, zip};
ghost use Rattle.model.specs.Refusal.{are_bits, store_fits};
ghost use Rattle.checks.specs.Paired.{header_fits};

// Is each of them 0 or 1?
pub fn are_bits(bits: &[u8]) -> bool
    ensures { result ≡ are_bits bits.now }
{
    bits.iter().all(|b| *b < 2)
}

// Does each header of these sizes have its bits?
pub fn store_fits(sizes: &[u16], headers: &[Vec<u8>]) -> bool
    ensures { result ≡ store_fits sizes.now (map vec_items headers.now) }
{
    sizes.len() == headers.len() && each_fits(sizes, headers)
}

fn each_fits(sizes: &[u16], headers: &[Vec<u8>]) -> bool
    ensures { result ≡ list_all (λ p. header_fits p.0 p.1.items) (zip sizes.now headers.now) }
{
    sizes.iter().zip(headers).all(|(size, bits)| bits.len() == *size as usize && are_bits(bits))
}
