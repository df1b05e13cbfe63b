// The masked write: each word of the data memory under a mask, and the mask's low byte for an odd last byte.
#![tactic(auto)]

ghost use Rattle.std.specs.Prelude.{◌≡◌, ◌+◌, ◌≤◌, [], ◌∷◌, length};
ghost use Rattle.base.specs.Masks.{mix};
ghost use Rattle.base.specs.Numbers.{number};
ghost use Rattle.processor_masked_write.specs.Written.{written};

#[tactic(auto, unfolding(base::specs::Numbers::number))]
fn word(low: u8, high: u8) -> u16
    ensures { result ≡ number (low ∷ high ∷ []) }
{
    u16::from(low) + 256 * u16::from(high)
}

fn mixed_byte(mask: u8, old: u8, value: u8) -> u8
    ensures { result ≡ mix 0xFF mask old value }
{
    (old & !mask) | (value & mask)
}

fn write_all(memory: &mut [u8], at: usize, mask: u16, values: &[u8])
    requires { at + length values.now ≤ length memory.old }
    ensures { memory.new ≡ written memory.old at mask values.now }
{
    let n = values.len();
    for i in 0..n / 2 {
        let p = at + 2 * i;
        let w = base::mixed(
            mask,
            word(memory[p], memory[p + 1]),
            word(values[2 * i], values[2 * i + 1]),
        );
        memory[p] = (w % 256) as u8;
        memory[p + 1] = (w / 256) as u8;
    }
    if n % 2 == 1 {
        let p = at + (n - 1);
        memory[p] = mixed_byte((mask % 256) as u8, memory[p], values[n - 1]);
    }
}

// These values from a place on, under a mask; values for which the memory has no byte are dropped.
pub fn masked_write(memory: &mut [u8], at: usize, mask: u16, values: &[u8])
    ensures { memory.new ≡ written memory.old at mask values.now }
{
    if memory.len() <= at {
        return;
    }
    let n = values.len().min(memory.len() - at);
    write_all(memory, at, mask, &values[..n]);
}
